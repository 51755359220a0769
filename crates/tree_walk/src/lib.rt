// The walk through an accepted box tree: document 02's C-20. specs/Boxed says what is answered, specs/Walk how the walk goes, and WalkLaws that the two are one.
#![tactic(auto)]

use names::TRIANGLE_LIMIT;

pub mod inner; // inner.rt: the nearest hit and the transmittance through a tree

// How many numbers the points have in the tree's order, of as many triangles as a scene may have.
pub const TURNED_NUMBERS: usize = TRIANGLE_LIMIT * 9;
