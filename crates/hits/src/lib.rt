// The hits of a ray, put in order.
#![tactic(auto)]

pub mod inner; // inner.rt: hits put in order
