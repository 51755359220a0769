// Where a ray meets one triangle: document 01's module 3, the test. The order of operations is the Rust's (raytracer.rs,
// ray_triangle_intersect). Three things are added: a triangle that is too thin is absent, a distance that is not finite is a miss, and a hit says which
// side was met.
#![tactic(auto)]

pub mod inner;

// "The test answers a miss, or a hit that carries distance, u and v", and "which side was met": true for the front.
#[derive(Clone, Copy)]
pub struct Hit {
    pub t: f32,
    pub u: f32,
    pub v: f32,
    pub front: bool,
}

// What the test computes before it judges: the determinant, the two barycentric numbers and the distance.
#[derive(Clone, Copy)]
pub struct Solved {
    pub det: f32,
    pub u: f32,
    pub v: f32,
    pub t: f32,
}

// The half of it that shows most misses, and what the rest is computed from: the two edges from p0, the origin from p0, and the determinant's inverse.
#[derive(Clone, Copy)]
pub struct HalfSolved {
    pub e1: vectors::Vec3,
    pub e2: vectors::Vec3,
    pub s: vectors::Vec3,
    pub det: f32,
    pub inverse: f32,
    pub u: f32,
}
