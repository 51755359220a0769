// The occupied mask of a scene's triangles. `masks` has the public call.
#![tactic(auto)]

pub mod inner;
