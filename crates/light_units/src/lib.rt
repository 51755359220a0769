// A light in units of 2^-24, rounded down.
#![tactic(auto)]

pub mod inner;
