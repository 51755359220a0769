// The steps of a league report, as both programs take them.
#![tactic(auto)]

pub mod inner; // inner.rt: a report under way
