// The numbers accepted: what a light, an ambient and a lamp are, and one test for each row of the table of refusals.
#![tactic(auto)]

use vectors::Vec3;

pub mod inner;

// The light of a scene: where it comes from, and its colour.
#[repr(C)]
#[derive(Clone, Copy)]
pub struct Light {
    pub direction: Vec3,
    pub colour: Vec3,
}

// Ambient: four coefficients, each a colour.
#[repr(C)]
#[derive(Clone, Copy)]
pub struct Ambient {
    pub c0: Vec3,
    pub c1: Vec3,
    pub c2: Vec3,
    pub c3: Vec3,
}

// A lamp: a point that shines, and its colour. A list of lamps has six numbers for each: position, then colour.
#[derive(Clone, Copy)]
pub struct Lamp {
    pub position: Vec3,
    pub colour: Vec3,
}
