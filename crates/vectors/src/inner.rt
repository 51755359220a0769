// A vector out of a lent list, and the rays that a bake and a sun pass make.
ghost use Rattle.std.specs.Prelude.{◌≡◌, ◌+◌, ◌<◌, length};
ghost use Rattle.names.specs.Bits.{inf32};
ghost use Rattle.vectors.specs.Places.{vec_at};
ghost use Rattle.vectors.specs.Rays.{point_at, ray_from};

use super::{Ray, Vec3};

// Three numbers of a list, from k on.
pub fn vec_at(list: &[f32], k: usize) -> Vec3
    requires { k + 2 < length list.now }
    ensures { result ≡ vec_at list.now k }
{
    Vec3 {
        x: list[k],
        y: list[k + 1],
        z: list[k + 2],
    }
}

// The ray along a direction that starts `ahead` of a point, from the shortest distance to infinity.
pub fn ray_from(point: Vec3, direction: Vec3, ahead: f32, shortest: f32) -> Ray
    ensures { result ≡ ray_from point direction ahead shortest }
{
    let origin = point_at(point, direction, ahead);
    Ray {
        origin,
        direction,
        shortest,
        longest: infinity(),
    }
}

// The point at a distance along a direction.
pub fn point_at(origin: Vec3, direction: Vec3, distance: f32) -> Vec3
    ensures { result ≡ point_at origin direction distance }
{
    super::add(origin, super::scale(direction, distance))
}

// The infinity above every number.
fn infinity() -> f32
    ensures { result ≡ inf32 }
{
    f32::from_bits(0x7f800000)
}
