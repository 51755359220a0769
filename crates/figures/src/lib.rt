// Definitions only: specs/ has document 01's proved figures.
#![tactic(auto)]
