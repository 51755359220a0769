// What the writer of a volume file writes: head, contents of five entries, and the five bodies.
#![tactic(auto)]

pub mod inner;
