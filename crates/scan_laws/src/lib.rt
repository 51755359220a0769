// Laws only: specs/ says what the two scans mean.
#![tactic(auto)]
