// Laws only: specs/ says that a blend grows with each of its values, and how far it lies from them.
#![tactic(auto)]
