// The occupied mask: cleared, and then marked at the voxel of every sample of every triangle that is not absent.
ghost use Rattle.std.specs.Prelude.{◌≡◌, ◌-◌, ◌/◌, ◌<◌, ◌≤◌, length};
ghost use Rattle.grid.specs.Grid.{voxels, AxesWithin};
ghost use Rattle.words.specs.Words.{entries_of, word_count, Tidy, Holds};
ghost use Rattle.occupy.specs.Occupied.{occupied_of};
ghost use Rattle.occupy.specs.Marking.{mark_row, mark_rows, mark_triangle, mark_all};

use grid::{Axes, Corners};
use vectors::{Triangle, Vec3};

// The occupied mask of the triangles of points, nine numbers each, in occupied.
#[tactic(auto, using(words::specs::WordsLaws::clear_holds, crate::specs::OccupiedLaws::marked_occupied))]
pub fn occupy(axes: Axes, corners: Corners, points: &[f32], occupied: &mut [u64])
    requires { AxesWithin axes × (length occupied.old ≡ word_count (voxels axes)) }
    ensures { Holds occupied.new (voxels axes) (occupied_of axes corners points.now) }
{
    words::inner::clear(occupied);
    let edges = grid::inner::edges(corners, axes);
    let e = grid::inner::smallest_edge(edges);
    mark_all(axes, corners.min, edges, e, points, occupied);
}

#[tactic(auto, using(lists::specs::Fold::fold_step, lists::specs::Fold::fold_end), unfolding(crate::specs::Marking::mark_all))]
fn mark_all(axes: Axes, low: Vec3, edges: Vec3, e: f32, points: &[f32], occupied: &mut [u64])
    requires { AxesWithin axes × Tidy occupied.old (voxels axes) }
    ensures { Holds occupied.new (voxels axes) (mark_all axes low edges e points.now (entries_of occupied.old (voxels axes))) }
{
    for k in 0..points.len() / 9 {
        mark_triangle(
            axes,
            low,
            edges,
            e,
            triangle::inner::at(points, k),
            occupied,
        );
    }
}

#[tactic(auto, using(samples::specs::SamplesLaws::samples_most, samples::specs::SamplesLaws::side_most), unfolding(crate::specs::Marking::mark_triangle))]
fn mark_triangle(axes: Axes, low: Vec3, edges: Vec3, e: f32, t: Triangle, occupied: &mut [u64])
    requires { AxesWithin axes × Tidy occupied.old (voxels axes) }
    ensures { Holds occupied.new (voxels axes) (mark_triangle axes low edges e t (entries_of occupied.old (voxels axes))) }
{
    if triangle::inner::absent(t) {
        return;
    }
    let n = samples::inner::side(samples::inner::sample_count(t, e));
    mark_rows(axes, low, edges, t, n, occupied);
}

#[tactic(auto, using(lists::specs::Fold::fold_step, lists::specs::Fold::fold_end), unfolding(crate::specs::Marking::mark_rows))]
fn mark_rows(axes: Axes, low: Vec3, edges: Vec3, t: Triangle, n: usize, occupied: &mut [u64])
    requires { AxesWithin axes × (n ≤ 64) × Tidy occupied.old (voxels axes) }
    ensures { Holds occupied.new (voxels axes) (mark_rows axes low edges t n (entries_of occupied.old (voxels axes))) }
{
    for iu in 0..n {
        mark_row(axes, low, edges, t, n, iu, occupied);
    }
}

#[tactic(auto, using(lists::specs::Fold::fold_step, lists::specs::Fold::fold_end), unfolding(crate::specs::Marking::mark_row))]
fn mark_row(
    axes: Axes,
    low: Vec3,
    edges: Vec3,
    t: Triangle,
    n: usize,
    iu: usize,
    occupied: &mut [u64],
)
    requires { AxesWithin axes × (n ≤ 64) × (iu < n) × Tidy occupied.old (voxels axes) }
    ensures { Holds occupied.new (voxels axes) (mark_row axes low edges t n iu (entries_of occupied.old (voxels axes))) }
{
    let count = grid::inner::voxel_count(axes);
    for iv in 0..n - iu {
        words::inner::mark(
            occupied,
            count,
            samples::inner::sample_cell(axes, low, edges, t, n, iu, iv),
        );
    }
}
