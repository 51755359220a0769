// The walk of a call that is not refused, from its next voxel on.
ghost use Rattle.std.specs.Prelude.{◌≡◌, ◌-◌, length};
ghost use Rattle.names.specs.Scene.{scene_for};
ghost use Rattle.tracing.specs.Through.{Through};
ghost use Rattle.grid.specs.Grid.{voxels};
ghost use Rattle.directions.specs.Table.{directions};
ghost use Rattle.gather.specs.Gather.{gather_of};
ghost use Rattle.intake.specs.Intake.{input_of};
ghost use Rattle.spread.specs.Spread as spread;
ghost use Rattle.demand.specs.Bake.{bake_of};
ghost use Rattle.walk.specs.Reports.{Takeable, Taken, Walkable, Reports};

use super::Reached;
use grid::{Axes, Corners};
use limits::{Ambient, Light};

// Goes through the active voxels from next on, in order, while the allowance lasts.
pub fn walk(
    axes: Axes,
    corners: Corners,
    points: &[f32],
    uses: &[u32],
    kinds: &[u8],
    numbers: &[f32],
    boxed: bool,
    boxes: &[f32],
    nodes: &[u32],
    order: &[u32],
    rows: &[f32],
    light: Light,
    ambient: Ambient,
    sky: &[f32],
    lamps: &[f32],
    table: &[f32; 1728],
    active: &[u64],
    lights: &[f32],
    volume: &mut [f32],
    distances: &mut [f32],
    places: &mut [usize],
    next: usize,
    allowance: u64,
) -> Reached
    requires walkable { Walkable
        (input_of axes corners (scene_for boxed points.now uses.now kinds.now numbers.now boxes.now nodes.now order.now) light ambient sky.now lamps.now active.now lights.now
        (length distances.old) (length places.old))
        (length volume.old) next }
    requires table_value { table.now ≡ directions }
    requires through { Through (scene_for boxed points.now uses.now kinds.now numbers.now boxes.now nodes.now order.now) rows.now }
    ensures { Reports
        (spread.walk
        (bake_of (input_of axes corners (scene_for boxed points.now uses.now kinds.now numbers.now boxes.now nodes.now order.now)
        light ambient sky.now lamps.now active.now lights.now
        (length distances.old) (length places.old)))
        (voxels axes - next) next allowance volume.old)
        result volume.new distances.old distances.new places.old places.new }
{
    let n = lights.len();
    let cost = intake::inner::voxel_cost(lamps);
    let mut rays: u64 = 0;
    let mut i = words::inner::next_marked(active, n, next);
    // index loop: from one marked voxel to the next
    while i < n && cost <= allowance - rays {
        rays += take(
            axes, corners, points, uses, kinds, numbers, boxed, boxes, nodes, order, rows, light,
            ambient, sky, lamps, table, lights, volume, distances, places, i,
        );
        i = words::inner::next_marked(active, n, i + 1);
    }
    Reached { next: i, rays }
}

// Gathers one voxel into its place of the volume, and answers its rays.
fn take(
    axes: Axes,
    corners: Corners,
    points: &[f32],
    uses: &[u32],
    kinds: &[u8],
    numbers: &[f32],
    boxed: bool,
    boxes: &[f32],
    nodes: &[u32],
    order: &[u32],
    rows: &[f32],
    light: Light,
    ambient: Ambient,
    sky: &[f32],
    lamps: &[f32],
    table: &[f32; 1728],
    lights: &[f32],
    volume: &mut [f32],
    distances: &mut [f32],
    places: &mut [usize],
    i: usize,
) -> u64
    requires takeable { Takeable
        (gather_of axes corners (scene_for boxed points.now uses.now kinds.now numbers.now boxes.now nodes.now order.now) light ambient sky.now lamps.now lights.now)
        i (length distances.old) (length places.old) (length volume.old) }
    requires table_value { table.now ≡ directions }
    requires through { Through (scene_for boxed points.now uses.now kinds.now numbers.now boxes.now nodes.now order.now) rows.now }
    ensures { Taken
        (gather_of axes corners (scene_for boxed points.now uses.now kinds.now numbers.now boxes.now nodes.now order.now)
        light ambient sky.now lamps.now lights.now)
        i result volume.old volume.new }
{
    let start = i * 16;
    let end = start + 16;
    gather::inner::gather_voxel(
        axes,
        corners,
        points,
        uses,
        kinds,
        numbers,
        boxed,
        boxes,
        nodes,
        order,
        rows,
        light,
        ambient,
        sky,
        lamps,
        table,
        lights,
        distances,
        places,
        i,
        &mut volume[start..end],
    )
}
