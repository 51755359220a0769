// Laws only: specs/ says how large the light is that a sun pass writes, and that no number of its rays is infinite or a NaN.
#![tactic(auto)]
