// The active mask of an occupied mask. `masks` has the public call.
#![tactic(auto)]

pub mod inner;
