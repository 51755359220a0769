// What the gather computes of four coefficients. Each function is total; its contract is one equation.
ghost use Rattle.std.specs.Prelude.{◌≡◌};
ghost use Rattle.harmonics.specs.Harmonics.{add_weighted, projected, added_to, raised_v, raised_of, blended_v, irradiance_of, evaluated_at, luminance_of, blended_each, floored_of};

use super::Coefficients;
use vectors::Vec3;

// The basis: 0.282095, and 0.488603 times a component.
const CONSTANT_BASIS: f32 = 0.282095;

const LINEAR_BASIS: f32 = 0.488603;
// 4π/64: the weight of one of 64 primary directions.
const PRIMARY_WEIGHT: f32 = 0.19634955;
// π·0.282095 and (2π/3)·0.488603, each product of f32 rounded once, as the Rust's constants are.
const CONSTANT_IRRADIANCE: f32 = 0.88622755;

const LINEAR_IRRADIANCE: f32 = 1.0233277;
// "Brightness floor 0.005".
const FLOOR: f32 = 0.005;

const RED: f32 = 0.2126;

const GREEN: f32 = 0.7152;

const BLUE: f32 = 0.0722;

// One coefficient with a radiance added at a basis' value: radiance·(basis·weight).
fn add_weighted(sum: Vec3, radiance: Vec3, basis: f32) -> Vec3
    ensures { result ≡ add_weighted sum radiance basis }
{
    vectors::add(sum, vectors::scale(radiance, basis * PRIMARY_WEIGHT))
}

// The sums with the radiance that comes from a direction.
pub fn project(sums: Coefficients, direction: Vec3, radiance: Vec3) -> Coefficients
    ensures { result ≡ projected sums direction radiance }
{
    let c0 = add_weighted(sums.c0, radiance, CONSTANT_BASIS);
    let c1 = add_weighted(sums.c1, radiance, LINEAR_BASIS * direction.y);
    let c2 = add_weighted(sums.c2, radiance, LINEAR_BASIS * direction.z);
    let c3 = add_weighted(sums.c3, radiance, LINEAR_BASIS * direction.x);
    Coefficients { c0, c1, c2, c3 }
}

// "Radiance with squared length ≤0 adds nothing."
pub fn add_radiance(sums: Coefficients, direction: Vec3, radiance: Vec3) -> Coefficients
    ensures { result ≡ added_to sums direction radiance }
{
    if vectors::dot(radiance, radiance) <= 0.0 {
        return sums;
    }
    project(sums, direction, radiance)
}

// Irradiance from radiance: each coefficient by its factor.
pub fn irradiance(radiance: Coefficients) -> Coefficients
    ensures { result ≡ irradiance_of radiance }
{
    let c0 = vectors::scale(radiance.c0, CONSTANT_IRRADIANCE);
    let c1 = vectors::scale(radiance.c1, LINEAR_IRRADIANCE);
    let c2 = vectors::scale(radiance.c2, LINEAR_IRRADIANCE);
    let c3 = vectors::scale(radiance.c3, LINEAR_IRRADIANCE);
    Coefficients { c0, c1, c2, c3 }
}

// The coefficients at a normal: ((c0+c1·ny)+c2·nz)+c3·nx.
pub fn evaluate(coefficients: Coefficients, normal: Vec3) -> Vec3
    ensures { result ≡ evaluated_at coefficients normal }
{
    let one = vectors::add(coefficients.c0, vectors::scale(coefficients.c1, normal.y));
    let two = vectors::add(one, vectors::scale(coefficients.c2, normal.z));
    vectors::add(two, vectors::scale(coefficients.c3, normal.x))
}

// (.2126x+.7152y)+.0722z
pub fn luminance(colour: Vec3) -> f32
    ensures { result ≡ luminance_of colour }
{
    RED * colour.x + GREEN * colour.y + BLUE * colour.z
}

// Each component raised to 0.
pub fn raise(a: Vec3) -> Vec3
    ensures { result ≡ raised_v a }
{
    let zero = Vec3 {
        x: 0.0,
        y: 0.0,
        z: 0.0,
    };
    vectors::larger(a, zero)
}

// Each coefficient raised to 0.
pub fn raise_each(coefficients: Coefficients) -> Coefficients
    ensures { result ≡ raised_of coefficients }
{
    let c0 = raise(coefficients.c0);
    let c1 = raise(coefficients.c1);
    let c2 = raise(coefficients.c2);
    let c3 = raise(coefficients.c3);
    Coefficients { c0, c1, c2, c3 }
}

// From a coefficient toward 0.005 of ambient's.
fn blend_one(coefficient: Vec3, ambient: Vec3, t: f32) -> Vec3
    ensures { result ≡ blended_v coefficient ambient t }
{
    vectors::lerp(coefficient, vectors::scale(ambient, FLOOR), t)
}

fn blend(coefficients: Coefficients, ambient: Coefficients, t: f32) -> Coefficients
    ensures { result ≡ blended_each coefficients ambient t }
{
    let c0 = blend_one(coefficients.c0, ambient.c0, t);
    let c1 = blend_one(coefficients.c1, ambient.c1, t);
    let c2 = blend_one(coefficients.c2, ambient.c2, t);
    let c3 = blend_one(coefficients.c3, ambient.c3, t);
    Coefficients { c0, c1, c2, c3 }
}

// The brightness floor: where coefficient 0 is darker than 0.005 of ambient's, all four are blended toward 0.005 of ambient's.
pub fn floor_brightness(coefficients: Coefficients, ambient: Coefficients) -> Coefficients
    ensures { result ≡ floored_of coefficients ambient }
{
    let least = luminance(vectors::scale(ambient.c0, FLOOR));
    if least <= 0.0 {
        return coefficients;
    }
    let current = luminance(coefficients.c0);
    if current >= least {
        return coefficients;
    }
    let t = vectors::clamp((least - current) / least);
    blend(coefficients, ambient, t)
}
