// A box out of a lent list, a triangle's padded box, and what is asked of boxes.
ghost use Rattle.std.specs.Prelude.{◌≡◌, ◌+◌, ◌*◌, ◌<◌, length};
ghost use Rattle.boxes.specs.Boxes.{bounds_at, padded_of, beyond, passed_over, at_most, inside_of};

use super::Bounds;
use names::BOX_PADDING;
use vectors::{Triangle, Vec3};

// Box i of a list: six numbers, its low corner, then its high one.
pub fn bounds_at(boxes: &[f32], i: usize) -> Bounds
    requires { i * 6 + 5 < length boxes.now }
    ensures { result ≡ bounds_at boxes.now i }
{
    let k = i * 6;
    let low = vectors::inner::vec_at(boxes, k);
    let high = vectors::inner::vec_at(boxes, k + 3);
    Bounds { low, high }
}

// The box around a triangle, padded.
pub fn padded(t: Triangle) -> Bounds
    ensures { result ≡ padded_of t }
{
    let padding = Vec3 {
        x: BOX_PADDING,
        y: BOX_PADDING,
        z: BOX_PADDING,
    };
    let low = vectors::sub(
        vectors::smaller(vectors::smaller(t.p0, t.p1), t.p2),
        padding,
    );
    let high = vectors::add(vectors::larger(vectors::larger(t.p0, t.p1), t.p2), padding);
    Bounds { low, high }
}

// Whether a ray passes the box over. No test is skipped: each is cheaper than a branch.
pub fn passed_over(origin: Vec3, direction: Vec3, b: Bounds) -> bool
    ensures { result ≡ passed_over origin direction b }
{
    let low = b.low;
    let high = b.high;
    let x = is_beyond(origin.x, direction.x, low.x, high.x);
    let y = is_beyond(origin.y, direction.y, low.y, high.y);
    let z = is_beyond(origin.z, direction.z, low.z, high.z);
    x | y | z
}

// On one axis: the origin lies above and the direction is not negative, or below and it is not positive.
fn is_beyond(origin: f32, direction: f32, low: f32, high: f32) -> bool
    ensures { result ≡ beyond origin direction low high }
{
    ((high < origin) & !(direction < 0.0)) | ((origin < low) & !(0.0 < direction))
}

// Whether the inner box lies inside the outer.
pub fn is_inside(inner: Bounds, outer: Bounds) -> bool
    ensures { result ≡ inside_of inner outer }
{
    at_most(outer.low, inner.low) & at_most(inner.high, outer.high)
}

// Whether no component of a is above that of b, and none is NaN.
fn at_most(a: Vec3, b: Vec3) -> bool
    ensures { result ≡ at_most a b }
{
    (a.x <= b.x) & (a.y <= b.y) & (a.z <= b.z)
}
