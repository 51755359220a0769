// What a surface's light is made of, as gi.rs has it and C-12 adds to it: biases, the basis of a normal with its four hemisphere directions, the way to a
// lamp and its ray, and the light that a surface gives back. Nothing here traces a ray.
#![tactic(auto)]

use vectors::Vec3;

pub mod inner;

// How far a primary ray starts from its voxel's centre, how far a shading point stands off its surface, how far a secondary ray starts
// from there, and the bake's shortest distance.
#[derive(Clone, Copy)]
pub struct Biases {
    pub primary: f32,
    pub hit: f32,
    pub step: f32,
    pub shortest: f32,
}

// From a point to a lamp: the unit vector there, the squared distance and the distance.
#[derive(Clone, Copy)]
pub struct Way {
    pub unit: Vec3,
    pub squared: f32,
    pub distance: f32,
}

// A normal with its two tangents.
#[derive(Clone, Copy)]
pub struct Basis {
    pub tangent: Vec3,
    pub bitangent: Vec3,
    pub normal: Vec3,
}
