// How many samples a triangle has, where they lie, and into which voxel each falls.
ghost use Rattle.std.specs.Prelude.{◌≡◌, ◌<◌, ◌≤◌, T, nat_le};
ghost use Rattle.std.specs.Float.Ieee as Ieee;
ghost use Rattle.floats.specs.Whole.{ceiling_of};
ghost use Rattle.grid.specs.Grid.{AxesWithin};
ghost use Rattle.samples.specs.Samples.{density_of, count_of, sample_count, side_of, share_of, rest_of, point_of, cell_on, cell_of, sample_cell};
ghost use Rattle.samples.specs.CastLaws.{power, minus_one};

use grid::Axes;
use names::{MOST_SAMPLES, MOST_TARGET};
use vectors::{Triangle, Vec3};

// How many samples a triangle has over an edge of e.
pub fn sample_count(t: Triangle, e: f32) -> usize
    ensures { result ≡ sample_count t e }
{
    count(target(density(t, e)))
}

// Area over the edge squared, times 2.
#[tactic(auto, unfolding(crate::specs::Samples::density_of))]
fn density(t: Triangle, e: f32) -> f32
    ensures { result ≡ density_of t e }
{
    let cross = vectors::cross(vectors::sub(t.p1, t.p0), vectors::sub(t.p2, t.p0));
    let area = 0.5 * vectors::length(cross);
    area / (e * e) * 2.0
}

// That, raised to a whole number.
fn target(density: f32) -> f32
    ensures { result ≡ ceiling_of density }
{
    floats::ceiling(density)
}

// A number clamped to 1..4096, as a whole number.
#[tactic(auto, unfolding(crate::specs::Samples::count_of))]
fn count(target: f32) -> usize
    ensures { result ≡ count_of target }
{
    if 1.0 < target {
        if target < MOST_TARGET {
            return std::num::truncating_f32_to_u64(target) as usize;
        }
        return MOST_SAMPLES;
    }
    1
}

// The least n with n·n at least s.
pub fn side(s: usize) -> usize
    requires { s ≤ 4096 }
    ensures { result ≡ side_of s }
{
    let mut n = 0;
    // index loop: a search, which its own test ends
    while n * n < s {
        n += 1;
    }
    n
}

// The voxel into which sample (iu, iv) of n a side falls; the number of voxels where it is skipped or falls outside the grid.
#[tactic(auto, unfolding(crate::specs::Samples::sample_cell))]
pub fn sample_cell(
    axes: Axes,
    low: Vec3,
    edges: Vec3,
    t: Triangle,
    n: usize,
    iu: usize,
    iv: usize,
) -> usize
    requires { AxesWithin axes × (n < 65536) × (iu < 65536) × (iv < 65536) }
    ensures { result ≡ sample_cell axes low edges t n iu iv }
{
    let u = share(iu, n);
    let v = share(iv, n);
    let w = rest(u, v);
    if w < 0.0 {
        return grid::inner::voxel_count(axes);
    }
    cell(axes, low, edges, point(t, u, v, w))
}

#[tactic(auto, unfolding(crate::specs::Samples::share_of))]
fn share(i: usize, n: usize) -> f32
    requires { (i < 65536) × (n < 65536) }
    ensures { result ≡ share_of i n }
{
    (grid::inner::float(i) + 0.5) / grid::inner::float(n)
}

// What two weights leave to the third.
fn rest(u: f32, v: f32) -> f32
    ensures { result ≡ rest_of u v }
{
    1.0 - u - v
}

#[tactic(auto, unfolding(crate::specs::Samples::point_of))]
fn point(t: Triangle, u: f32, v: f32, w: f32) -> Vec3
    ensures { result ≡ point_of t u v w }
{
    let a = vectors::scale(t.p0, w);
    let b = vectors::scale(t.p1, u);
    let c = vectors::scale(t.p2, v);
    vectors::add(vectors::add(a, b), c)
}

// The voxel of a point; the number of voxels where it lies outside the grid. A number is cast only where all three lie on their axes.
#[tactic(auto, using(crate::specs::FallsLaws::on_axis_lem), unfolding(crate::specs::Samples::cell_of, crate::specs::Samples::index_within))]
fn cell(axes: Axes, low: Vec3, edges: Vec3, p: Vec3) -> usize
    requires { AxesWithin axes }
    ensures { result ≡ cell_of axes low edges p }
{
    let x = (p.x - low.x) / edges.x;
    if off_axis(x, axes.width) {
        return grid::inner::voxel_count(axes);
    }
    let y = (p.y - low.y) / edges.y;
    if off_axis(y, axes.height) {
        return grid::inner::voxel_count(axes);
    }
    let z = (p.z - low.z) / edges.z;
    if off_axis(z, axes.depth) {
        return grid::inner::voxel_count(axes);
    }
    grid::inner::index(axes, floored(x), floored(y), floored(z))
}

// Whether f has no cell on an axis of n.
#[tactic(auto, using(crate::specs::FallsLaws::off_axis, crate::specs::FallsLaws::off_below))]
fn off_axis(f: f32, n: usize) -> bool
    requires { (1 ≤ n) × (n < 65536) }
    ensures { result ≡ nat_le n (cell_on f n) }
{
    !(0.0 <= f && f < grid::inner::float(n))
}

fn floored(f: f32) -> usize
    requires { T (Ieee.lt minus_one f) × T (Ieee.lt f (power 64)) }
    ensures { result ≡ Ieee.to_unsigned 64 f }
{
    std::num::truncating_f32_to_u64(f) as usize
}
