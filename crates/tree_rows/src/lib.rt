// A box tree in rows, for a loop over them: specs/Rows says what the rows hold and what a scan by them may count on.
#![tactic(auto)]

use names::TRIANGLE_LIMIT;

pub mod inner; // inner.rt: the rows written, and read

// How many numbers the rows need: nine a triangle and nine a box, fewer than twice as many boxes as triangles, of as many triangles as a scene may have.
pub const ROW_NUMBERS: usize = TRIANGLE_LIMIT * 27;
