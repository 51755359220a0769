// The resumable bake of a volume of spherical harmonics, with hit scratch, between solid walls or through a box tree. Document 01, module 7; lamps by document 02, C-12,
// progress by C-16, solid walls by C-22, trees by C-20.
#![tactic(auto)]

ghost use Rattle.std.specs.Prelude.{◌≡◌, cond, ◌+◌, ◌*◌, ◌≤◌, ◌<◌, eqb, length};
ghost use Rattle.names.specs.Numbers.{voxel_limit};
ghost use Rattle.names.specs.Scene.{scene_of, scene_for, tree_scene};
ghost use Rattle.tracing.specs.Through.{Through};
ghost use Rattle.grid.specs.Grid.{voxels};
ghost use Rattle.words.specs.Words.{entries_of, Tidy};
ghost use Rattle.spread.specs.Spread.{stage, accepted};
ghost use Rattle.ends.specs.Ends.{filled_of};
ghost use Rattle.intake.specs.Intake.{input_for, input_of, solid_input};
ghost use Rattle.intake.specs.IntakeLaws.{Fits};
ghost use Rattle.demand.specs.Bake.{bake_of};
ghost use Rattle.walk.specs.Reports.{Accepts};
ghost use Rattle.bake.specs.Baked.{Baked, SolidBaked, answer_of, advance_of, Ends};

use grid::{Axes, Corners};
use limits::{Ambient, Light};
use names::Refusal;
use spread::Progress;
use tree_rows::ROW_NUMBERS;
use walk::Reached;

// How far a call brought the bake: the progress to go on with, and the rays that the call fired.
#[derive(Clone, Copy)]
pub struct Advance {
    pub progress: Progress,
    pub rays: u64,
}

// The same as C is told it: the number of a refusal, 0 where there is none; on a refusal progress as handed in, and no rays.
#[repr(C)]
#[derive(Clone, Copy)]
pub struct BakeAnswer {
    pub refusal: u32,
    pub progress: Progress,
    pub rays: u64,
}

impl BakeAnswer {
    // What stands for the answer of a call that was handed this progress.
    pub fn of(answer: Result<Advance, Refusal>, progress: Progress) -> BakeAnswer
        ensures { result ≡ answer_of answer progress }
    {
        match answer {
            Ok(advance) => BakeAnswer {
                refusal: 0,
                progress: advance.progress,
                rays: advance.rays,
            },
            Err(refusal) => BakeAnswer {
                refusal: u32::from(refusal),
                progress,
                rays: 0,
            },
        }
    }
}

// Bakes from progress on while the allowance lasts. Refused by 1 to 7, 19, 9, 10 and 13, in that order, and then writes nothing.
pub fn bake(
    axes: Axes,
    corners: Corners,
    points: &[f32],
    uses: &[u32],
    kinds: &[u8],
    numbers: &[f32],
    light: Light,
    ambient: Ambient,
    sky: &[f32],
    lamps: &[f32],
    active: &[u64],
    lights: &[f32],
    volume: &mut [f32],
    scratch: &mut [f32],
    distances: &mut [f32],
    places: &mut [usize],
    progress: Progress,
    allowance: u64,
) -> Result<Advance, Refusal>
    ensures { Baked
        (input_of axes corners (scene_of points.now uses.now kinds.now numbers.now)
        light ambient sky.now lamps.now active.now lights.now
        (length distances.old) (length places.old))
        (stage progress volume.old scratch.old) allowance
        (answer_of result progress) volume.new scratch.new distances.old distances.new places.old places.new }
{
    treeless_bake(
        false, axes, corners, points, uses, kinds, numbers, light, ambient, sky, lamps, active,
        lights, volume, scratch, distances, places, progress, allowance,
    )
}

// The same where every material is opaque: a ray to the sun, the sky or a lamp ends at its first hit, and no hit scratch is lent. Refused by the same numbers; by 6
// also for a kind other than opaque, used or not. A bake may be begun by the one call and gone on with by the other.
pub fn solid_bake(
    axes: Axes,
    corners: Corners,
    points: &[f32],
    uses: &[u32],
    kinds: &[u8],
    numbers: &[f32],
    light: Light,
    ambient: Ambient,
    sky: &[f32],
    lamps: &[f32],
    active: &[u64],
    lights: &[f32],
    volume: &mut [f32],
    scratch: &mut [f32],
    progress: Progress,
    allowance: u64,
) -> Result<Advance, Refusal>
    ensures { SolidBaked
        (solid_input axes corners (scene_of points.now uses.now kinds.now numbers.now)
        light ambient sky.now lamps.now active.now lights.now)
        (stage progress volume.old scratch.old) allowance
        (answer_of result progress) volume.new scratch.new }
{
    let mut distances = [0.0f32; 0];
    let mut places = [0usize; 0];
    treeless_bake(
        true,
        axes,
        corners,
        points,
        uses,
        kinds,
        numbers,
        light,
        ambient,
        sky,
        lamps,
        active,
        lights,
        volume,
        scratch,
        &mut distances,
        &mut places,
        progress,
        allowance,
    )
}

// The same through a box tree of the scene, with hit scratch: only triangles whose own padded box is not passed over are candidates of a ray. Refused by 1 to 7,
// 19, 16 where the tree is not accepted, 9, 10 and 13, in that order. Apart from `treeless_bake`, since the rows take room on the stack only where a tree comes.
pub fn tree_bake(
    axes: Axes,
    corners: Corners,
    points: &[f32],
    uses: &[u32],
    kinds: &[u8],
    numbers: &[f32],
    boxes: &[f32],
    nodes: &[u32],
    order: &[u32],
    light: Light,
    ambient: Ambient,
    sky: &[f32],
    lamps: &[f32],
    active: &[u64],
    lights: &[f32],
    volume: &mut [f32],
    scratch: &mut [f32],
    distances: &mut [f32],
    places: &mut [usize],
    progress: Progress,
    allowance: u64,
) -> Result<Advance, Refusal>
    ensures { Baked
        (input_of axes corners (tree_scene points.now uses.now kinds.now numbers.now boxes.now nodes.now order.now)
        light ambient sky.now lamps.now active.now lights.now
        (length distances.old) (length places.old))
        (stage progress volume.old scratch.old) allowance
        (answer_of result progress) volume.new scratch.new distances.old distances.new places.old places.new }
{
    intake::inner::judge(
        false,
        axes,
        corners,
        points,
        uses,
        kinds,
        numbers,
        true,
        boxes,
        nodes,
        order,
        light,
        ambient,
        sky,
        lamps,
        active,
        lights,
        volume,
        scratch,
        distances.len(),
        places.len(),
        progress,
        allowance,
    )?;
    let mut rows = [0.0f32; ROW_NUMBERS];
    tree_rows::inner::lay(points, boxes, nodes, order, &mut rows);
    let reached = go_on(
        axes, corners, points, uses, kinds, numbers, true, boxes, nodes, order, &rows, light,
        ambient, sky, lamps, active, lights, volume, scratch, distances, places, progress,
        allowance,
    );
    Ok(advanced(progress, reached))
}

// A call without a tree, for solid walls or not; those lend hit scratch that holds nothing.
fn treeless_bake(
    solid: bool,
    axes: Axes,
    corners: Corners,
    points: &[f32],
    uses: &[u32],
    kinds: &[u8],
    numbers: &[f32],
    light: Light,
    ambient: Ambient,
    sky: &[f32],
    lamps: &[f32],
    active: &[u64],
    lights: &[f32],
    volume: &mut [f32],
    scratch: &mut [f32],
    distances: &mut [f32],
    places: &mut [usize],
    progress: Progress,
    allowance: u64,
) -> Result<Advance, Refusal>
    ensures { Baked
        (input_for solid axes corners (scene_of points.now uses.now kinds.now numbers.now)
        light ambient sky.now lamps.now active.now lights.now
        (length distances.old) (length places.old))
        (stage progress volume.old scratch.old) allowance
        (answer_of result progress) volume.new scratch.new distances.old distances.new places.old places.new }
{
    let none = [0.0f32; 0];
    let no_node = [0u32; 0];
    intake::inner::judge(
        solid,
        axes,
        corners,
        points,
        uses,
        kinds,
        numbers,
        false,
        &none,
        &no_node,
        &no_node,
        light,
        ambient,
        sky,
        lamps,
        active,
        lights,
        volume,
        scratch,
        distances.len(),
        places.len(),
        progress,
        allowance,
    )?;
    let reached = go_on(
        axes, corners, points, uses, kinds, numbers, false, &none, &no_node, &no_node, &none,
        light, ambient, sky, lamps, active, lights, volume, scratch, distances, places, progress,
        allowance,
    );
    Ok(advanced(progress, reached))
}

// What was reached from progress on, with its rays added to those so far.
fn advanced(progress: Progress, reached: Reached) -> Advance
    requires { progress.rays + reached.rays < 18446744073709551616 }
    ensures { result ≡ advance_of progress reached }
{
    Advance {
        progress: Progress {
            next: reached.next,
            rays: progress.rays + reached.rays,
        },
        rays: reached.rays,
    }
}

// A call that is not refused, with hit scratch where hits take room: a finished bake is left as it is.
fn go_on(
    axes: Axes,
    corners: Corners,
    points: &[f32],
    uses: &[u32],
    kinds: &[u8],
    numbers: &[f32],
    boxed: bool,
    boxes: &[f32],
    nodes: &[u32],
    order: &[u32],
    rows: &[f32],
    light: Light,
    ambient: Ambient,
    sky: &[f32],
    lamps: &[f32],
    active: &[u64],
    lights: &[f32],
    volume: &mut [f32],
    scratch: &mut [f32],
    distances: &mut [f32],
    places: &mut [usize],
    progress: Progress,
    allowance: u64,
) -> Reached
    requires fits { Fits
        (input_of axes corners (scene_for boxed points.now uses.now kinds.now numbers.now boxes.now nodes.now order.now) light ambient sky.now lamps.now active.now lights.now
        (length distances.old) (length places.old))
        (stage progress volume.old scratch.old) allowance }
    requires through { Through (scene_for boxed points.now uses.now kinds.now numbers.now boxes.now nodes.now order.now) rows.now }
    ensures { Accepts
        (accepted
        (bake_of (input_of axes corners (scene_for boxed points.now uses.now kinds.now numbers.now boxes.now nodes.now order.now)
        light ambient sky.now lamps.now active.now lights.now
        (length distances.old) (length places.old)))
        allowance (stage progress volume.old scratch.old))
        result volume.new scratch.new distances.old distances.new places.old places.new }
{
    let n = lights.len();
    let next = progress.next;
    if next == n {
        return Reached { next, rays: 0 };
    }
    start(ambient, lights, volume, next);
    let table = directions::table();
    let r = walk::inner::walk(
        axes, corners, points, uses, kinds, numbers, boxed, boxes, nodes, order, rows, light,
        ambient, sky, lamps, &table, active, lights, volume, distances, places, next, allowance,
    );
    let reached = r.next;
    end(axes, active, volume, scratch, n, reached);
    r
}

// "At 0, first fill the volume with ambient"
fn start(ambient: Ambient, lights: &[f32], volume: &mut [f32], next: usize)
    requires { (length volume.old ≡ length lights.now * 16) × (length lights.now ≤ voxel_limit) }
    ensures { volume.new ≡ cond (eqb next 0) (filled_of ambient lights.now) volume.old }
{
    if next == 0 {
        ends::inner::fill(ambient, lights, volume);
    }
}

// "At the end, if any voxel is active, scratch gets the unblurred volume and the volume its 3×3×3 mean." Of n voxels the end is at n.
fn end(
    axes: Axes,
    active: &[u64],
    volume: &mut [f32],
    scratch: &mut [f32],
    n: usize,
    reached: usize,
)
    requires width_nonzero { (0 < axes.width) × (0 < axes.height) × (axes.depth * axes.height * axes.width * 16 ≡ length volume.old)
        × (length scratch.old ≡ length volume.old) }
    requires tidy { Tidy active.now (voxels axes) × (n ≡ voxels axes) }
    ensures { Ends axes (entries_of active.now (voxels axes)) reached volume.old scratch.old volume.new scratch.new }
{
    if reached == n {
        ends::inner::finish(axes, active, volume, scratch);
    }
}
