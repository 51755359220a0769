// Laws only: specs/ has what the edges of a grid are once row 2 has passed, and how large its numbers get.
#![tactic(auto)]
