// The walk of a bake through its voxels, from its first end to its last.
#![tactic(auto)]

pub mod inner;

// The next voxel's index, and the rays that were fired on the way to it.
#[derive(Clone, Copy)]
pub struct Reached {
    pub next: usize,
    pub rays: u64,
}
