// The figures of a list of lights, counted in units of 2^-24.
#![tactic(auto)]

pub mod inner;

// How many lights there are, their units summed, the lowest and the highest, and how many fall in each of sixteen bands.
#[repr(C)]
#[derive(Clone, Copy)]
pub struct LightFigures {
    pub voxels: u64,
    pub sum: u64,
    pub lowest: u64,
    pub highest: u64,
    pub bands: [u64; 16],
}
