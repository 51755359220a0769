// Laws only: specs/ shows that what gather writes stays within ±2^96.
#![tactic(auto)]
