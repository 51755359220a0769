// Both scans of a ray, with a box tree or without. Sun, surfaces and gather send their rays here: which scan a ray takes is asked nowhere else.
#![tactic(auto)]

pub mod inner; // inner.rt: the two scans
