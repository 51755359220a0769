// How far a bake is that is spread over calls. What its calls come to is in specs/, over any bake.
#![tactic(auto)]

// The index of the next voxel, and the rays fired so far.
#[repr(C)]
#[derive(Clone, Copy)]
pub struct Progress {
    pub next: usize,
    pub rays: u64,
}
