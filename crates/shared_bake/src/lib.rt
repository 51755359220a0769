// Definitions and laws only: specs/ has what results of public calls come to when a bake is spread over shares.
#![tactic(auto)]
