// What the crates above compute of a grid that is within the limits.
ghost use Rattle.std.specs.Prelude.{◌≡◌, ◌<◌, ◌≤◌};
ghost use Rattle.grid.specs.Grid.{voxels, index_of, x_of, y_of, z_of, float_of, edges_of, centre_from, smallest_edge_of, AxesWithin};

use super::{Axes, Corners};
use vectors::Vec3;

// The number of voxels.
pub fn voxel_count(axes: Axes) -> usize
    requires { AxesWithin axes }
    ensures { result ≡ voxels axes }
{
    axes.depth * axes.height * axes.width
}

// The index of voxel (x, y, z).
pub fn index(axes: Axes, x: usize, y: usize, z: usize) -> usize
    requires axes_within { AxesWithin axes }
    requires x_lt_width { (x < axes.width) × (y < axes.height) × (z < axes.depth) }
    ensures { result ≡ index_of axes x y z }
{
    (z * axes.height + y) * axes.width + x
}

// A small whole number as a float.
pub fn float(n: usize) -> f32
    requires { n < 65536 }
    ensures { result ≡ float_of n }
{
    n as u16 as f32
}

// A voxel's edges.
pub fn edges(corners: Corners, axes: Axes) -> Vec3
    requires { AxesWithin axes }
    ensures { result ≡ edges_of corners axes }
{
    Vec3 {
        x: (corners.max.x - corners.min.x) / float(axes.width),
        y: (corners.max.y - corners.min.y) / float(axes.height),
        z: (corners.max.z - corners.min.z) / float(axes.depth),
    }
}

// The centre of voxel (x, y, z), from the grid's lower corner and its edges.
pub fn centre(low: Vec3, edges: Vec3, x: usize, y: usize, z: usize) -> Vec3
    requires { (x < 65536) × (y < 65536) × (z < 65536) }
    ensures { result ≡ centre_from low edges x y z }
{
    let start = vectors::add(low, vectors::scale(edges, 0.5));
    let steps = Vec3 {
        x: float(x),
        y: float(y),
        z: float(z),
    };
    vectors::add(start, vectors::mul(steps, edges))
}

// The centre of voxel i. Its index and the axes are small, and a short division is cheaper.
pub fn centre_of(low: Vec3, axes: Axes, edges: Vec3, i: usize) -> Vec3
    requires axes_within { AxesWithin axes }
    requires i_bound { i < voxels axes }
    ensures { result ≡ centre_from low edges (x_of axes i) (y_of axes i) (z_of axes i) }
{
    let k = i as u32;
    let w = axes.width as u32;
    let h = axes.height as u32;
    let row = k / w;
    centre(
        low,
        edges,
        (k % w) as usize,
        (row % h) as usize,
        (row / h) as usize,
    )
}

// The smallest of a voxel's edges, at least 1e-6. (A voxel's diagonal is `vectors::length` of its edges.)
pub fn smallest_edge(edges: Vec3) -> f32
    ensures { result ≡ smallest_edge_of edges }
{
    floats::larger(
        floats::smaller(edges.x, floats::smaller(edges.y, edges.z)),
        1.0e-6,
    )
}
