// Spherical harmonics of four coefficients, as gi.rs computes them: every order and bracket is the Rust's, each operation rounded once.
// Nothing here traces a ray.
#![tactic(auto)]

use vectors::Vec3;

pub mod inner;

// Four coefficients of three colours, in the basis' order: 1, y, z, x.
#[repr(C)]
#[derive(Clone, Copy)]
pub struct Coefficients {
    pub c0: Vec3,
    pub c1: Vec3,
    pub c2: Vec3,
    pub c3: Vec3,
}
