// Biases, the basis of a normal with its hemisphere directions, and the light at a surface.
ghost use Rattle.std.specs.Prelude.{◌≡◌, ◌<◌};
ghost use Rattle.bounce.specs.Biases.{biases_of};
ghost use Rattle.bounce.specs.Hemisphere.{up_of, basis_of, hemisphere, local_at, turned_by, sky_direction};
ghost use Rattle.bounce.specs.Light.{face_normal, facing_of, black_of, slant_of, sunlight_of, skylight_of, reflected_of};
ghost use Rattle.bounce.specs.Lamps.{way_to, unlit_by, lamp_ray_from, lamplight_of};

use super::{Basis, Biases, Way};
use harmonics::Coefficients;
use names::THIN_LIMIT;
use vectors::{Ray, Triangle, Vec3};

// ---- biases

pub fn biases_of(diagonal: f32, smallest: f32) -> Biases
    ensures { result ≡ biases_of diagonal smallest }
{
    let primary = floats::larger(diagonal * 0.35, 0.0004);
    let hit = floats::larger(diagonal * 0.05, 0.0008);
    let shortest = floats::larger(smallest * 0.15, 0.0001);
    Biases {
        primary,
        hit,
        step: hit * 0.5,
        shortest,
    }
}

// ---- the basis of a normal

// Z, or X where the normal is within some 2.6 degrees of Z.
fn up(normal: Vec3) -> Vec3
    ensures { result ≡ up_of normal }
{
    if floats::magnitude(normal.z) < 0.999 {
        return Vec3 {
            x: 0.0,
            y: 0.0,
            z: 1.0,
        };
    }
    Vec3 {
        x: 1.0,
        y: 0.0,
        z: 0.0,
    }
}

pub fn basis_of(normal: Vec3) -> Basis
    ensures { result ≡ basis_of normal }
{
    let tangent = vectors::normalise(vectors::cross(normal, up(normal)));
    let bitangent = vectors::cross(normal, tangent);
    Basis {
        tangent,
        bitangent,
        normal,
    }
}

// The four local hemisphere directions, x, y and z of each.
const HEMISPHERE: [f32; 12] = [
    0.0, 0.0, 1.0, 0.8660254, 0.0, 0.5, -0.4330127, 0.75, 0.5, -0.4330127, -0.75, 0.5,
];

// The table by value, to be lent for a walk over the four.
pub fn hemisphere_table() -> [f32; 12]
    ensures { result ≡ hemisphere }
{
    HEMISPHERE
}

// ---- light

// The normal of a triangle.
pub fn face_normal(triangle: Triangle) -> Vec3
    ensures { result ≡ face_normal triangle }
{
    let one = vectors::sub(triangle.p1, triangle.p0);
    let two = vectors::sub(triangle.p2, triangle.p0);
    vectors::normalise(vectors::cross(one, two))
}

// The normal turned to the side that a ray comes from.
pub fn facing(normal: Vec3, direction: Vec3) -> Vec3
    ensures { result ≡ facing_of normal direction }
{
    if vectors::dot(normal, vectors::neg(direction)) < 0.0 {
        return vectors::neg(normal);
    }
    normal
}

// Whether a surface neither gives light back nor glows: both have squared length ≤0.
pub fn black(albedo: Vec3, emissive: Vec3) -> bool
    ensures { result ≡ black_of albedo emissive }
{
    if vectors::dot(albedo, albedo) <= 0.0 {
        return vectors::dot(emissive, emissive) <= 0.0;
    }
    false
}

// n·l raised to 0.
pub fn slant(normal: Vec3, light: Vec3) -> f32
    ensures { result ≡ slant_of normal light }
{
    floats::larger(vectors::dot(normal, light), 0.0)
}

// The light of the sun at a surface: colour·(n·l·visibility).
pub fn sunlight(colour: Vec3, slant: f32, visibility: f32) -> Vec3
    ensures { result ≡ sunlight_of colour slant visibility }
{
    vectors::scale(colour, slant * visibility)
}

// The light of the sky at a surface: ambient at the normal, raised to 0, by the part of the sky that is seen.
pub fn skylight(ambient: Coefficients, normal: Vec3, visibility: f32) -> Vec3
    ensures { result ≡ skylight_of ambient normal visibility }
{
    vectors::scale(
        harmonics::inner::raise(harmonics::inner::evaluate(ambient, normal)),
        visibility,
    )
}

// What a surface sends out: albedo·(e/π) where the light e that falls on it has a squared length above 0, and what it glows by itself.
pub fn reflect(albedo: Vec3, emissive: Vec3, fallen: Vec3) -> Vec3
    ensures { result ≡ reflected_of albedo emissive fallen }
{
    let raised = harmonics::inner::raise(fallen);
    if vectors::dot(raised, raised) > 0.0 {
        return vectors::add(
            vectors::mul(albedo, vectors::div(raised, 3.1415927)),
            emissive,
        );
    }
    let none = Vec3 {
        x: 0.0,
        y: 0.0,
        z: 0.0,
    };
    vectors::add(none, emissive)
}

// ---- lamps

// From a point to a lamp's position.
pub fn way_to(point: Vec3, position: Vec3) -> Way
    ensures { result ≡ way_to point position }
{
    let v = vectors::sub(position, point);
    let unit = vectors::normalise(v);
    Way {
        unit,
        squared: vectors::dot(v, v),
        distance: vectors::length(v),
    }
}

// Whether a lamp adds nothing: n·l is not above zero, or its squared distance is at most 1e-12.
pub fn unlit(normal: Vec3, way: Way) -> bool
    ensures { result ≡ unlit_by normal way }
{
    !(vectors::dot(normal, way.unit) > 0.0) | (way.squared <= THIN_LIMIT)
}

// The ray to a lamp, from the shortest distance to the lamp's less that.
pub fn lamp_ray_from(point: Vec3, way: Way, shortest: f32) -> Ray
    ensures { result ≡ lamp_ray_from point way shortest }
{
    let direction = way.unit;
    Ray {
        origin: point,
        direction,
        shortest,
        longest: way.distance - shortest,
    }
}

// The light of a lamp at a surface: (colour·(n·l/d²))·visibility.
pub fn lamplight(colour: Vec3, normal: Vec3, way: Way, visibility: f32) -> Vec3
    ensures { result ≡ lamplight_of colour normal way visibility }
{
    vectors::scale(
        vectors::scale(colour, vectors::dot(normal, way.unit) / way.squared),
        visibility,
    )
}

// ---- a hemisphere direction out of the lent table

// Number j of the four local directions.
fn local_at(table: &[f32; 12], j: usize) -> Vec3
    requires table_value { table.now ≡ hemisphere }
    requires j_bound { j < 4 }
    ensures { result ≡ local_at j }
{
    let k = j * 3;
    Vec3 {
        x: table[k],
        y: table[k + 1],
        z: table[k + 2],
    }
}

// A local direction in a basis, normalised.
fn turn(basis: Basis, local: Vec3) -> Vec3
    ensures { result ≡ turned_by basis local }
{
    let flat = vectors::add(
        vectors::scale(basis.tangent, local.x),
        vectors::scale(basis.bitangent, local.y),
    );
    vectors::normalise(vectors::add(flat, vectors::scale(basis.normal, local.z)))
}

// Hemisphere direction j of a basis.
pub fn sky_direction(basis: Basis, table: &[f32; 12], j: usize) -> Vec3
    requires table_value { table.now ≡ hemisphere }
    requires j_bound { j < 4 }
    ensures { result ≡ sky_direction basis j }
{
    turn(basis, local_at(table, j))
}
