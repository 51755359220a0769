// What a bake is handed, and which of it is refused.
#![tactic(auto)]

pub mod inner;
