// The samples of a triangle, and the cell that each falls into. `masks` has the public call.
#![tactic(auto)]

pub mod inner;
