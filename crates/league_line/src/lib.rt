// The lines of the league report as text.
#![tactic(auto)]

pub mod inner;
