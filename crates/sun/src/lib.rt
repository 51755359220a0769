// The sun pass: how much of the sun each voxel sees. Document 01, module 5; the Rust's compute_sun_visibility.
#![tactic(auto)]

ghost use Rattle.std.specs.Prelude.{◌≡◌, false, ◌<◌, length};
ghost use Rattle.names.specs.Answers.{answer_number};
ghost use Rattle.names.specs.Scene.{scene_of, scene_for};
ghost use Rattle.tracing.specs.Through.{Through};
ghost use Rattle.grid.specs.Grid.{voxels, x_of, y_of, z_of, centre_from};
ghost use Rattle.words.specs.Words.{entries_of, Tidy};
ghost use Rattle.scan.specs.Transmittance.{transmittance_of};
ghost use Rattle.sun.specs.Sun.{sun_ray, sun_before, sun_refusal, Traceable, SunAnswered, SolidSunAnswered, TreeSunAnswered, SunPassed, sunned_of};
ghost use Rattle.sun.specs.SunLaws.{SunReady};

use grid::{Axes, Corners};
use names::{Refusal, SUN_DIAGONALS, SUN_SHORTEST};
use tree_rows::ROW_NUMBERS;
use vectors::Vec3;

// What a sun pass answers, as C is told it: 0 and the rays, one for each active voxel, or a refusal's number.
#[repr(C)]
#[derive(Clone, Copy)]
pub struct Sunned {
    pub refusal: u32,
    pub rays: u64,
}

impl From<Result<u64, Refusal>> for Sunned {
    ghost from_gives = { λ a s. s ≡ sunned_of a };

    fn from(answer: Result<u64, Refusal>) -> Sunned {
        match answer {
            Ok(rays) => Sunned { refusal: 0, rays },
            Err(refusal) => Sunned {
                refusal: u32::from(refusal),
                rays: 0,
            },
        }
    }
}

// Fills `light` with what each voxel sees of the sun, blurred, and `scratch` with the same before the blur. Where no voxel is active the light is all
// 1.0, and scratch stays as it was. The two lists of hits are scratch too, and what stands in them afterwards is left open. The mask is in words.
// Answers the rays, one for each active voxel. Refused by 1 to 7 and 13.
pub fn sun(
    axes: Axes,
    corners: Corners,
    points: &[f32],
    uses: &[u32],
    kinds: &[u8],
    numbers: &[f32],
    direction: Vec3,
    active: &[u64],
    light: &mut [f32],
    scratch: &mut [f32],
    distances: &mut [f32],
    places: &mut [usize],
) -> Result<u64, Refusal>
    ensures { SunAnswered false axes corners (scene_of points.now uses.now kinds.now numbers.now) direction active.now light.old scratch.old distances.old places.old (sunned_of result) light.new scratch.new distances.new places.new }
{
    treeless_sun(
        false, axes, corners, points, uses, kinds, numbers, direction, active, light, scratch,
        distances, places,
    )
}

// The same where every material is opaque: a ray ends at its first hit, and no lists of hits are lent. Refused by 1 to 7 and 13; by 6 also for a kind other
// than opaque, used or not.
pub fn solid_sun(
    axes: Axes,
    corners: Corners,
    points: &[f32],
    uses: &[u32],
    kinds: &[u8],
    numbers: &[f32],
    direction: Vec3,
    active: &[u64],
    light: &mut [f32],
    scratch: &mut [f32],
) -> Result<u64, Refusal>
    ensures { SolidSunAnswered axes corners (scene_of points.now uses.now kinds.now numbers.now) direction active.now light.old scratch.old (sunned_of result) light.new scratch.new }
{
    let mut distances = [0.0f32; 0];
    let mut places = [0usize; 0];
    treeless_sun(
        true,
        axes,
        corners,
        points,
        uses,
        kinds,
        numbers,
        direction,
        active,
        light,
        scratch,
        &mut distances,
        &mut places,
    )
}

// The same through a box tree of the scene, with hit scratch: only triangles whose own padded box is not passed over are candidates of a ray. Refused by 1 to 7,
// by 16 where the tree is not accepted, and by 13. Apart from `treeless_sun`, since the rows take room on the stack only where a tree comes.
pub fn tree_sun(
    axes: Axes,
    corners: Corners,
    points: &[f32],
    uses: &[u32],
    kinds: &[u8],
    numbers: &[f32],
    boxes: &[f32],
    nodes: &[u32],
    order: &[u32],
    direction: Vec3,
    active: &[u64],
    light: &mut [f32],
    scratch: &mut [f32],
    distances: &mut [f32],
    places: &mut [usize],
) -> Result<u64, Refusal>
    ensures { TreeSunAnswered axes corners points.now uses.now kinds.now numbers.now boxes.now nodes.now order.now direction active.now light.old scratch.old distances.old places.old (sunned_of result) light.new scratch.new distances.new places.new }
{
    judge(
        false,
        axes,
        corners,
        points,
        uses,
        kinds,
        numbers,
        true,
        boxes,
        nodes,
        order,
        direction,
        active,
        light.len(),
        scratch.len(),
        distances.len(),
        places.len(),
    )?;
    let mut rows = [0.0f32; ROW_NUMBERS];
    tree_rows::inner::lay(points, boxes, nodes, order, &mut rows);
    Ok(pass(
        axes, corners, points, uses, kinds, numbers, true, boxes, nodes, order, &rows, direction,
        active, light, scratch, distances, places,
    ))
}

// A call without a tree, for solid walls or not; those lend lists of hits that hold nothing.
fn treeless_sun(
    solid: bool,
    axes: Axes,
    corners: Corners,
    points: &[f32],
    uses: &[u32],
    kinds: &[u8],
    numbers: &[f32],
    direction: Vec3,
    active: &[u64],
    light: &mut [f32],
    scratch: &mut [f32],
    distances: &mut [f32],
    places: &mut [usize],
) -> Result<u64, Refusal>
    ensures { SunAnswered solid axes corners (scene_of points.now uses.now kinds.now numbers.now) direction active.now light.old scratch.old distances.old places.old (sunned_of result) light.new scratch.new distances.new places.new }
{
    let none = [0.0f32; 0];
    let no_node = [0u32; 0];
    judge(
        solid,
        axes,
        corners,
        points,
        uses,
        kinds,
        numbers,
        false,
        &none,
        &no_node,
        &no_node,
        direction,
        active,
        light.len(),
        scratch.len(),
        distances.len(),
        places.len(),
    )?;
    Ok(pass(
        axes, corners, points, uses, kinds, numbers, false, &none, &no_node, &no_node, &none,
        direction, active, light, scratch, distances, places,
    ))
}

// A pass that is not refused, and its rays.
fn pass(
    axes: Axes,
    corners: Corners,
    points: &[f32],
    uses: &[u32],
    kinds: &[u8],
    numbers: &[f32],
    boxed: bool,
    boxes: &[f32],
    nodes: &[u32],
    order: &[u32],
    rows: &[f32],
    direction: Vec3,
    active: &[u64],
    light: &mut [f32],
    scratch: &mut [f32],
    distances: &mut [f32],
    places: &mut [usize],
) -> u64
    requires sun_ready { SunReady axes (scene_for boxed points.now uses.now kinds.now numbers.now boxes.now nodes.now order.now) active.now (length light.old) (length scratch.old) (length distances.old) (length places.old) }
    requires through { Through (scene_for boxed points.now uses.now kinds.now numbers.now boxes.now nodes.now order.now) rows.now }
    ensures { SunPassed axes corners (scene_for boxed points.now uses.now kinds.now numbers.now boxes.now nodes.now order.now) direction (entries_of active.now (voxels axes)) scratch.old distances.old places.old result light.new scratch.new distances.new places.new }
{
    let rays = words::inner::count(active, light.len());
    if rays == 0 {
        light.fill(1.0);
        return 0;
    }
    trace(
        axes, corners, points, uses, kinds, numbers, boxed, boxes, nodes, order, rows, direction,
        active, scratch, distances, places,
    );
    means::inner::square(scratch, light, axes.width, axes.height, axes.depth);
    rays
}

// Refused by the first row that holds: 1, 2, 3, 4, 5, 6, 7, 16, 13, for solid walls or not. The last four arguments are the lengths of the light, its scratch and
// the two lists of hits.
#[tactic(auto, using(names::specs::Refusals::refusals, limits::specs::LimitsLaws::axes_row, grid::specs::GridLaws::voxels_most, limits::specs::LimitsLaws::few_points), unfolding(crate::specs::Sun::sun_refusal, crate::specs::Sun::wrong_sun))]
fn judge(
    solid: bool,
    axes: Axes,
    corners: Corners,
    points: &[f32],
    uses: &[u32],
    kinds: &[u8],
    numbers: &[f32],
    boxed: bool,
    boxes: &[f32],
    nodes: &[u32],
    order: &[u32],
    direction: Vec3,
    active: &[u64],
    lights: usize,
    scratches: usize,
    distances: usize,
    places: usize,
) -> Result<(), Refusal>
    ensures { answer_number result ≡ sun_refusal solid axes corners (scene_for boxed points.now uses.now kinds.now numbers.now boxes.now nodes.now order.now) direction active.now lights scratches distances places }
{
    if limits::inner::bad_axes(axes) {
        return Err(Refusal::Axes);
    }
    if limits::inner::bad_grid(corners, axes) {
        return Err(Refusal::Grid);
    }
    let n = grid::inner::voxel_count(axes);
    let t = uses.len();
    let scene = limits::inner::wrong_scene(points, uses, kinds, numbers);
    let a = active.len();
    let w = (n + 63) / 64;
    let wrong = scene
        | (a != w)
        | (lights != n)
        | (scratches != n)
        | limits::inner::short_hits(solid, distances, places, t);
    if wrong {
        return Err(Refusal::Lengths);
    }
    if limits::inner::too_many(uses.len(), kinds.len()) {
        return Err(Refusal::TooMany);
    }
    if limits::inner::bad_points(points) {
        return Err(Refusal::Points);
    }
    if limits::inner::bad_materials_for(solid, uses, kinds, numbers) {
        return Err(Refusal::Materials);
    }
    if limits::inner::bad_direction(direction) {
        return Err(Refusal::Lighting);
    }
    if tree::inner::not_accepted(boxed, points, boxes, nodes, order) {
        return Err(Refusal::Tree);
    }
    if words::inner::unused_set(active, n) {
        return Err(Refusal::Contents);
    }
    Ok(())
}

// The figures before the blur, in `before`: 1.0 everywhere, and then from active voxel to active voxel what each sees.
fn trace(
    axes: Axes,
    corners: Corners,
    points: &[f32],
    uses: &[u32],
    kinds: &[u8],
    numbers: &[f32],
    boxed: bool,
    boxes: &[f32],
    nodes: &[u32],
    order: &[u32],
    rows: &[f32],
    direction: Vec3,
    active: &[u64],
    before: &mut [f32],
    distances: &mut [f32],
    places: &mut [usize],
)
    requires traceable { Traceable axes (scene_for boxed points.now uses.now kinds.now numbers.now boxes.now nodes.now order.now) (length distances.old) (length places.old) }
    requires tidy { Tidy active.now (voxels axes) × (length before.old ≡ voxels axes) }
    requires through { Through (scene_for boxed points.now uses.now kinds.now numbers.now boxes.now nodes.now order.now) rows.now }
    ensures { before.new ≡ sun_before axes corners (scene_for boxed points.now uses.now kinds.now numbers.now boxes.now nodes.now order.now) direction (entries_of active.now (voxels axes)) }
{
    let edges = grid::inner::edges(corners, axes);
    let l = vectors::normalise(direction);
    let ahead = vectors::length(edges) * SUN_DIAGONALS;
    let low = corners.min;
    before.fill(1.0);
    let n = before.len();
    let mut i = words::inner::next_marked(active, n, 0);
    // index loop: from one marked voxel to the next
    while i < n {
        let f = seen(
            axes, low, edges, l, ahead, points, uses, kinds, numbers, boxed, boxes, nodes, order,
            rows, i, distances, places,
        );
        before[i] = f;
        i = words::inner::next_marked(active, n, i + 1);
    }
}

// What an active voxel sees of the sun.
fn seen(
    axes: Axes,
    low: Vec3,
    edges: Vec3,
    l: Vec3,
    ahead: f32,
    points: &[f32],
    uses: &[u32],
    kinds: &[u8],
    numbers: &[f32],
    boxed: bool,
    boxes: &[f32],
    nodes: &[u32],
    order: &[u32],
    rows: &[f32],
    i: usize,
    distances: &mut [f32],
    places: &mut [usize],
) -> f32
    requires traceable { Traceable axes (scene_for boxed points.now uses.now kinds.now numbers.now boxes.now nodes.now order.now) (length distances.old) (length places.old) }
    requires i_bound { i < voxels axes }
    requires through { Through (scene_for boxed points.now uses.now kinds.now numbers.now boxes.now nodes.now order.now) rows.now }
    ensures { result ≡ transmittance_of (scene_for boxed points.now uses.now kinds.now numbers.now boxes.now nodes.now order.now) (sun_ray l ahead (centre_from low edges (x_of axes i) (y_of axes i) (z_of axes i))) }
{
    let centre = grid::inner::centre_of(low, axes, edges, i);
    let ray = vectors::inner::ray_from(centre, l, ahead, SUN_SHORTEST);
    tracing::inner::transmittance(
        points, uses, kinds, numbers, boxed, boxes, nodes, order, rows, ray, distances, places,
    )
}
