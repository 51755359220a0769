// Statements only: specs/ has each row of the table of refusals at its limits, computed from the definitions that the calls cite, and laws of rows.
#![tactic(auto)]
