// The two ends of a bake: the fill before its first voxel, and the mean after its last.
#![tactic(auto)]

pub mod inner;
