// The 3×3×3 mean over a list of numbers, once, for light and for the sixteen numbers of a voxel. The crates above use it; `blurs` has the public calls.
#![tactic(auto)]

pub mod inner;

// Coordinates on an axis, from the first up to the one past the last.
#[derive(Clone, Copy)]
pub struct Span {
    pub first: usize,
    pub past: usize,
}
