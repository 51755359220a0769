// Gather (document 01, module 6): the sixteen numbers of a voxel and the rays that they take.
#![tactic(auto)]

use harmonics::Coefficients;
use vectors::Vec3;

pub mod inner;

// What comes back along one primary ray: its radiance, 1 where it met nothing, and the rays traced for it, itself among them.
#[derive(Clone, Copy)]
pub struct Incoming {
    pub radiance: Vec3,
    pub misses: usize,
    pub rays: u64,
}

// What a voxel has gathered so far: the projected sums, the rays that met nothing, and all rays traced.
#[derive(Clone, Copy)]
pub struct Gathering {
    pub sums: Coefficients,
    pub misses: usize,
    pub rays: u64,
}
