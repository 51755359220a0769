// The light that a surface sends back along a ray, and the rays that it takes: one to the sun where the sun is above the surface, four
// over the hemisphere, and one to each lamp that reaches it; none where the surface is black.
#![tactic(auto)]

use bounce::Biases;
use harmonics::Coefficients;
use vectors::Vec3;

pub mod inner;

// What every surface of a bake is lit by, and the biases of its rays. `toward` is the light's direction, normalised.
#[derive(Clone, Copy)]
pub struct Setting {
    pub biases: Biases,
    pub toward: Vec3,
    pub colour: Vec3,
    pub ambient: Coefficients,
}

// A surface where a ray has met it: the point that it is shaded at, which stands off it by the hit bias, its normal, turned to the ray's
// side, and its two colours.
#[derive(Clone, Copy)]
pub struct Surface {
    pub point: Vec3,
    pub normal: Vec3,
    pub albedo: Vec3,
    pub emissive: Vec3,
}

// A sum of transmittances, and the rays traced for it.
#[derive(Clone, Copy)]
pub struct Seen {
    pub sum: f32,
    pub rays: u64,
}

// Light, and the rays traced for it.
#[derive(Clone, Copy)]
pub struct Traced {
    pub light: Vec3,
    pub rays: u64,
}
