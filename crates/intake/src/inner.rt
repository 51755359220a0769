// The rows that a bake tests, in their order.
ghost use Rattle.std.specs.Prelude.{◌≡◌, ◌≤◌, length};
ghost use Rattle.names.specs.Answers.{answer_number};
ghost use Rattle.names.specs.Numbers.{voxel_limit, lamp_limit, voxel_cost};
ghost use Rattle.names.specs.Scene.{scene_for};
ghost use Rattle.limits.specs.Limits.{lamp_count, below_cost};
ghost use Rattle.words.specs.Words.{word_count, entries_of};
ghost use Rattle.spread.specs.Spread.{stage};
ghost use Rattle.intake.specs.Intake.{input_for, wrong_lengths, bad_lighting, bad_progress, bad_volume, bad_contents, bake_refusal};

use grid::{Axes, Corners};
use limits::{Ambient, Light};
use names::{BARE_COST, LAMP_COST, PRIMARY_RAYS, Refusal, SKY_NUMBERS};
use spread::Progress;

// Refused by the first row that holds; for solid walls or not.
#[tactic(auto, using(names::specs::Refusals::refusals, limits::specs::LimitsLaws::axes_row, limits::specs::LimitsLaws::lamps_row, grid::specs::GridLaws::voxels_most, limits::specs::LimitsLaws::few_points), unfolding(crate::specs::Intake::bake_refusal, crate::specs::Intake::bake_rows, crate::specs::Intake::wrong_bake_lists))]
pub fn judge(
    solid: bool,
    axes: Axes,
    corners: Corners,
    points: &[f32],
    uses: &[u32],
    kinds: &[u8],
    numbers: &[f32],
    boxed: bool,
    boxes: &[f32],
    nodes: &[u32],
    order: &[u32],
    light: Light,
    ambient: Ambient,
    sky: &[f32],
    lamps: &[f32],
    active: &[u64],
    lights: &[f32],
    volume: &[f32],
    scratch: &[f32],
    distances: usize,
    places: usize,
    progress: Progress,
    allowance: u64,
) -> Result<(), Refusal>
    ensures { answer_number result ≡ bake_refusal
        (input_for solid axes corners (scene_for boxed points.now uses.now kinds.now numbers.now boxes.now nodes.now order.now)
        light ambient sky.now lamps.now active.now lights.now distances places)
        (stage progress volume.now scratch.now) allowance }
{
    if limits::inner::bad_axes(axes) {
        return Err(Refusal::Axes);
    }
    if limits::inner::bad_grid(corners, axes) {
        return Err(Refusal::Grid);
    }
    let n = grid::inner::voxel_count(axes);
    let scene = limits::inner::wrong_scene(points, uses, kinds, numbers);
    let lengths = wrong_lengths(
        solid,
        n,
        uses.len(),
        sky,
        lamps,
        active,
        lights,
        volume,
        scratch,
        distances,
        places,
    );
    if scene | lengths {
        return Err(Refusal::Lengths);
    }
    if limits::inner::too_many(uses.len(), kinds.len()) {
        return Err(Refusal::TooMany);
    }
    if limits::inner::bad_points(points) {
        return Err(Refusal::Points);
    }
    if limits::inner::bad_materials_for(solid, uses, kinds, numbers) {
        return Err(Refusal::Materials);
    }
    if bad_lighting(light, ambient, sky) {
        return Err(Refusal::Lighting);
    }
    if limits::inner::bad_lamps(lamps) {
        return Err(Refusal::Lamps);
    }
    if tree::inner::not_accepted(boxed, points, boxes, nodes, order) {
        return Err(Refusal::Tree);
    }
    if bad_progress(n, active, lamps, progress) {
        return Err(Refusal::Progress);
    }
    if below_cost(lamps, allowance) {
        return Err(Refusal::Allowance);
    }
    if bad_contents(active, lights, volume, progress.next, n) {
        return Err(Refusal::Contents);
    }
    Ok(())
}

// ---- 3, of n voxels and t triangles

#[tactic(auto, unfolding(crate::specs::Intake::wrong_lengths))]
fn wrong_lengths(
    solid: bool,
    n: usize,
    t: usize,
    sky: &[f32],
    lamps: &[f32],
    active: &[u64],
    lights: &[f32],
    volume: &[f32],
    scratch: &[f32],
    distances: usize,
    places: usize,
) -> bool
    requires { n ≤ voxel_limit }
    ensures { result ≡ wrong_lengths solid n t (length sky.now) (length lamps.now) (length active.now) (length lights.now)
        (length volume.now) (length scratch.now) distances places }
{
    let all = n * 16;
    let one = (sky.len() != SKY_NUMBERS) | (active.len() != (n + 63) / 64) | (lights.len() != n);
    let sixteen = (volume.len() != all) | (scratch.len() != all);
    let hits = limits::inner::short_hits(solid, distances, places, t);
    one | sixteen | hits | (lamps.len() % 6 != 0)
}

// ---- 7

#[tactic(auto, unfolding(crate::specs::Intake::bad_lighting))]
fn bad_lighting(light: Light, ambient: Ambient, sky: &[f32]) -> bool
    ensures { result ≡ bad_lighting light ambient sky.now }
{
    let a = limits::inner::bad_light(light);
    let b = limits::inner::bad_ambient(ambient);
    let c = limits::inner::bad_sky(sky);
    a | b | c
}

// ---- 9, of n voxels

#[tactic(auto, using(names::specs::Refusals::refusals), unfolding(crate::specs::Intake::bad_progress))]
fn bad_progress(n: usize, active: &[u64], lamps: &[f32], progress: Progress) -> bool
    requires { (n ≤ voxel_limit) × (length active.now ≡ word_count n) × (lamp_count lamps.now ≤ lamp_limit) }
    ensures { result ≡ bad_progress n (entries_of active.now n) (lamp_count lamps.now) progress }
{
    if n < progress.next {
        return true;
    }
    let marked = words::inner::count_below(active, progress.next);
    (progress.rays < marked * PRIMARY_RAYS) | (marked * voxel_cost(lamps) < progress.rays)
}

// ---- 10

fn below_cost(lamps: &[f32], allowance: u64) -> bool
    requires { lamp_count lamps.now ≤ lamp_limit }
    ensures { result ≡ below_cost (lamp_count lamps.now) allowance }
{
    allowance < voxel_cost(lamps)
}

// The most that a voxel may cost.
pub fn voxel_cost(lamps: &[f32]) -> u64
    requires { lamp_count lamps.now ≤ lamp_limit }
    ensures { result ≡ voxel_cost (lamp_count lamps.now) }
{
    BARE_COST + LAMP_COST * limits::inner::lamp_count(lamps) as u64
}

// ---- 13

// The mask's unused bits and the lights always; the volume's coefficients where the bake is under way.
#[tactic(auto, unfolding(crate::specs::Intake::bad_contents))]
fn bad_contents(active: &[u64], lights: &[f32], volume: &[f32], next: usize, n: usize) -> bool
    requires { length active.now ≡ word_count n }
    ensures { result ≡ bad_contents active.now lights.now volume.now next n }
{
    let a = words::inner::unused_set(active, n);
    let b = limits::inner::bad_lights(lights);
    let c = bad_volume(volume, next, n);
    a | b | c
}

#[tactic(auto, using(names::specs::Refusals::refusals), unfolding(crate::specs::Intake::bad_volume))]
fn bad_volume(volume: &[f32], next: usize, n: usize) -> bool
    ensures { result ≡ bad_volume volume.now next n }
{
    0 < next && next < n && limits::inner::bad_coefficients(volume)
}
