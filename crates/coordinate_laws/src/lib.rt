// Laws only: specs/ says that no coordinate of an accepted lookup or sample is infinite or a NaN.
#![tactic(auto)]
