// Statements only: specs/ has panels from both sides, computed from the definitions that the ray calls cite.
#![tactic(auto)]
