// Definitions and laws only: specs/ shows that two accepted trees of one scene give the same bits, of results of the public calls.
#![tactic(auto)]
