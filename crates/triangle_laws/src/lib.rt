// Laws only: specs/ says when a triangle is met, both ways.
#![tactic(auto)]
