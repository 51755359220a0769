// Vectors of three f32 by value, and what a ray and a triangle are. Each operation is rounded once, in document 01's order.
#![tactic(auto)]

ghost use Rattle.std.specs.Prelude.{◌≡◌};
ghost use Rattle.vectors.specs.Vectors.{add_v, sub_v, mul_v, scale_v, div_v, neg_v, dot_v, cross_v, length_v, normal_v, larger_v, smaller_v, clamp_of, clamp_v, lerp_v};

pub mod inner;

#[repr(C)]
#[derive(Clone, Copy)]
pub struct Vec3 {
    pub x: f32,
    pub y: f32,
    pub z: f32,
}

// From origin along direction, between the distances shortest and longest.
#[repr(C)]
#[derive(Clone, Copy)]
pub struct Ray {
    pub origin: Vec3,
    pub direction: Vec3,
    pub shortest: f32,
    pub longest: f32,
}

#[repr(C)]
#[derive(Clone, Copy)]
pub struct Triangle {
    pub p0: Vec3,
    pub p1: Vec3,
    pub p2: Vec3,
}

pub fn add(a: Vec3, b: Vec3) -> Vec3
    ensures { result ≡ add_v a b }
{
    Vec3 {
        x: a.x + b.x,
        y: a.y + b.y,
        z: a.z + b.z,
    }
}

pub fn sub(a: Vec3, b: Vec3) -> Vec3
    ensures { result ≡ sub_v a b }
{
    Vec3 {
        x: a.x - b.x,
        y: a.y - b.y,
        z: a.z - b.z,
    }
}

// By component.
pub fn mul(a: Vec3, b: Vec3) -> Vec3
    ensures { result ≡ mul_v a b }
{
    Vec3 {
        x: a.x * b.x,
        y: a.y * b.y,
        z: a.z * b.z,
    }
}

pub fn scale(a: Vec3, s: f32) -> Vec3
    ensures { result ≡ scale_v a s }
{
    Vec3 {
        x: a.x * s,
        y: a.y * s,
        z: a.z * s,
    }
}

pub fn div(a: Vec3, s: f32) -> Vec3
    ensures { result ≡ div_v a s }
{
    Vec3 {
        x: a.x / s,
        y: a.y / s,
        z: a.z / s,
    }
}

// The signs turned.
pub fn neg(a: Vec3) -> Vec3
    ensures { result ≡ neg_v a }
{
    Vec3 {
        x: -a.x,
        y: -a.y,
        z: -a.z,
    }
}

pub fn dot(a: Vec3, b: Vec3) -> f32
    ensures { result ≡ dot_v a b }
{
    a.x * b.x + a.y * b.y + a.z * b.z
}

pub fn cross(a: Vec3, b: Vec3) -> Vec3
    ensures { result ≡ cross_v a b }
{
    Vec3 {
        x: a.y * b.z - a.z * b.y,
        y: a.z * b.x - a.x * b.z,
        z: a.x * b.y - a.y * b.x,
    }
}

pub fn length(a: Vec3) -> f32
    ensures { result ≡ length_v a }
{
    floats::root(dot(a, a))
}

// Each component divided by the root of the dot.
pub fn normalise(a: Vec3) -> Vec3
    ensures { result ≡ normal_v a }
{
    div(a, length(a))
}

// By component; of two equals the second.
pub fn larger(a: Vec3, b: Vec3) -> Vec3
    ensures { result ≡ larger_v a b }
{
    Vec3 {
        x: floats::larger(a.x, b.x),
        y: floats::larger(a.y, b.y),
        z: floats::larger(a.z, b.z),
    }
}

// By component; of two equals the second.
pub fn smaller(a: Vec3, b: Vec3) -> Vec3
    ensures { result ≡ smaller_v a b }
{
    Vec3 {
        x: floats::smaller(a.x, b.x),
        y: floats::smaller(a.y, b.y),
        z: floats::smaller(a.z, b.z),
    }
}

// Raised to 0, then lowered to 1.
pub fn clamp(x: f32) -> f32
    ensures { result ≡ clamp_of x }
{
    floats::smaller(floats::larger(x, 0.0), 1.0)
}

// By component.
pub fn clamp_each(a: Vec3) -> Vec3
    ensures { result ≡ clamp_v a }
{
    Vec3 {
        x: clamp(a.x),
        y: clamp(a.y),
        z: clamp(a.z),
    }
}

// From a at 0 to b at 1: a·(1−t)+b·t by component.
pub fn lerp(a: Vec3, b: Vec3, t: f32) -> Vec3
    ensures { result ≡ lerp_v a b t }
{
    add(scale(a, 1.0 - t), scale(b, t))
}
