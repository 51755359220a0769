// A grid of voxels: its axes, its corners, the edges and the centres of its voxels.
#![tactic(auto)]

use vectors::Vec3;

pub mod inner;

// How many voxels lie along x, y and z.
#[repr(C)]
#[derive(Clone, Copy)]
pub struct Axes {
    pub width: usize,
    pub height: usize,
    pub depth: usize,
}

// The box that the voxels fill.
#[repr(C)]
#[derive(Clone, Copy)]
pub struct Corners {
    pub min: Vec3,
    pub max: Vec3,
}
