// Laws only: specs/ says that no number of a ray call is infinite or a NaN, and how large they are from wherever a ray starts.
#![tactic(auto)]
