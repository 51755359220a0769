#![tactic(auto)]

// Definitions and laws only: specs/ has a bake that is spread over shares of its voxels, over any bake.
