// The public calls for C, and for Rust through C's interface: include/geaidnosa.h says each in one sentence. A list is lent as its pointer and its
// length, a struct goes by value, and no call keeps a pointer. Each hands on the public call's own contract; where that call answers an enum or a
// part of a list, specs/Exports.antt says what stands for it. The float functions go by bit patterns, since a NaN's pattern is promised too.
#![tactic(auto)]

ghost use Rattle.names.specs.Scene.{scene_of, tree_scene};
ghost use Rattle.std.specs.Prelude.{length, ◌≡◌, false, cond};
ghost use Rattle.floats.specs.Choice.{magnitude_of, larger_of, smaller_of};
ghost use Rattle.floats.specs.Patterns.{on_bits, on_both};
ghost use Rattle.floats.specs.Root.{root_of};
ghost use Rattle.floats.specs.Whole.{floor_of, ceiling_of};
ghost use Rattle.directions.specs.Sets.{set_of};
ghost use Rattle.directions.specs.Filled.{DirectionsFilled};
ghost use Rattle.rays.specs.Rays.{refused_values, hit_values, values_of_met, values_of_found, TransmittanceAnswered, SolidTransmittanceAnswered, TreeTransmittanceAnswered};
ghost use Rattle.tree_build.specs.Build.{BuildAnswered};
ghost use Rattle.masks.specs.Masks.{MasksFilled};
ghost use Rattle.blurs.specs.Blurs.{LightBlurred, CoefficientsBlurred};
ghost use Rattle.sun.specs.Sun.{SunAnswered, SolidSunAnswered, TreeSunAnswered};
ghost use Rattle.spread.specs.Spread.{stage};
ghost use Rattle.intake.specs.Intake.{input_of, solid_input};
ghost use Rattle.bake.specs.Baked.{Baked, SolidBaked};
ghost use Rattle.join.specs.Join.{Joined};
ghost use Rattle.lookup.specs.Lookup.{LightLookedUp, CoefficientsLookedUp, PartJudged};
ghost use Rattle.frames.specs.Frames.{LightsFramed, CoefficientsFramed};
ghost use Rattle.volume.specs.Volume.{FileAxes, VolumeBytes, VolumeRead, VolumeWritten, FileFigures};
ghost use Rattle.geaidnosa.specs.Exports.{version_number, values_of, chosen, MeetTold, NearestTold, PartTold};

use bake::BakeAnswer;
use frames::FirstRefusal;
use grid::{Axes, Corners};
use limits::{Ambient, Light};
use lookup::{CoefficientsAt, LightAt};
use masks::Marked;
use rays::{Found, Met, Transmitted};
use spread::Progress;
use sun::Sunned;
use tree_build::TreeBuilt;
use vectors::{Ray, Triangle, Vec3};
use volume::{Figures, Head, Needed};

// A refusal's number, or 0; 1 for a hit, else 0; the hit's place in the list, its distance, u and v, and 1 where the front was met; zeros where there is no
// hit.
#[repr(C)]
#[derive(Clone, Copy)]
pub struct RayHit {
    pub refusal: u32,
    pub hit: u32,
    pub place: usize,
    pub t: f32,
    pub u: f32,
    pub v: f32,
    pub front: u32,
}

// A refusal's number, or 0 and the place in the list where the voxel's sixteen numbers start.
#[repr(C)]
#[derive(Clone, Copy)]
pub struct PartStart {
    pub refusal: u32,
    pub start: usize,
}

// ---- the version

// 0.7.0: major·1,000,000 + minor·1,000 + patch, as GEAIDNOSA_VERSION_NUMBER in the header.
const VERSION: u32 = 7000;

#[unsafe(no_mangle)]
pub extern "C" fn geaidnosa_version() -> u32
    ensures { result ≡ version_number }
{
    VERSION
}

// ---- directions

#[unsafe(no_mangle)]
pub extern "C" fn geaidnosa_directions(out: &mut [f32]) -> u32
    ensures { DirectionsFilled out.old result out.new }
{
    names::told(directions::fill(out))
}

#[unsafe(no_mangle)]
pub extern "C" fn geaidnosa_set_of_voxel(x: usize, y: usize, z: usize) -> usize
    ensures { result ≡ set_of x y z }
{
    directions::set_of_voxel(x, y, z)
}

// ---- rays

#[unsafe(no_mangle)]
pub extern "C" fn geaidnosa_meet(ray: Ray, triangle: Triangle) -> RayHit
    ensures { MeetTold ray triangle result }
{
    met_told(rays::meet(ray, triangle))
}

#[unsafe(no_mangle)]
pub extern "C" fn geaidnosa_nearest(
    points: &[f32],
    uses: &[u32],
    kinds: &[u8],
    numbers: &[f32],
    ray: Ray,
) -> RayHit
    ensures { NearestTold (scene_of points.now uses.now kinds.now numbers.now) ray result }
{
    found_told(rays::nearest(points, uses, kinds, numbers, ray))
}

#[unsafe(no_mangle)]
pub extern "C" fn geaidnosa_transmittance(
    points: &[f32],
    uses: &[u32],
    kinds: &[u8],
    numbers: &[f32],
    ray: Ray,
    distances: &mut [f32],
    places: &mut [usize],
) -> Transmitted
    ensures { TransmittanceAnswered (scene_of points.now uses.now kinds.now numbers.now) ray distances.old places.old result distances.new places.new }
{
    rays::transmittance(points, uses, kinds, numbers, ray, distances, places)
}

#[unsafe(no_mangle)]
pub extern "C" fn geaidnosa_solid_transmittance(
    points: &[f32],
    uses: &[u32],
    kinds: &[u8],
    numbers: &[f32],
    ray: Ray,
) -> Transmitted
    ensures { SolidTransmittanceAnswered (scene_of points.now uses.now kinds.now numbers.now) ray result }
{
    rays::solid_transmittance(points, uses, kinds, numbers, ray)
}

// ---- a scene's box tree

#[unsafe(no_mangle)]
pub extern "C" fn geaidnosa_build_tree(
    points: &[f32],
    boxes: &mut [f32],
    nodes: &mut [u32],
    order: &mut [u32],
) -> TreeBuilt
    ensures { BuildAnswered points.now boxes.old nodes.old order.old result boxes.new nodes.new order.new }
{
    tree_build::build_tree(points, boxes, nodes, order).into()
}

#[unsafe(no_mangle)]
pub extern "C" fn geaidnosa_tree_nearest(
    points: &[f32],
    uses: &[u32],
    kinds: &[u8],
    numbers: &[f32],
    boxes: &[f32],
    nodes: &[u32],
    order: &[u32],
    ray: Ray,
) -> RayHit
    ensures { NearestTold (tree_scene points.now uses.now kinds.now numbers.now boxes.now nodes.now order.now) ray result }
{
    found_told(rays::tree_nearest(points, uses, kinds, numbers, boxes, nodes, order, ray))
}

#[unsafe(no_mangle)]
pub extern "C" fn geaidnosa_tree_transmittance(
    points: &[f32],
    uses: &[u32],
    kinds: &[u8],
    numbers: &[f32],
    boxes: &[f32],
    nodes: &[u32],
    order: &[u32],
    ray: Ray,
    distances: &mut [f32],
    places: &mut [usize],
) -> Transmitted
    ensures { TreeTransmittanceAnswered points.now uses.now kinds.now numbers.now boxes.now nodes.now order.now ray distances.old places.old result distances.new places.new }
{
    rays::tree_transmittance(
        points, uses, kinds, numbers, boxes, nodes, order, ray, distances, places,
    )
}

// ---- masks, blurs and the sun

#[unsafe(no_mangle)]
pub extern "C" fn geaidnosa_masks(
    axes: Axes,
    corners: Corners,
    points: &[f32],
    occupied: &mut [u64],
    active: &mut [u64],
) -> Marked
    ensures { MasksFilled axes corners points.now occupied.old active.old result occupied.new active.new }
{
    masks::masks(axes, corners, points, occupied, active).into()
}

#[unsafe(no_mangle)]
pub extern "C" fn geaidnosa_light_blur(axes: Axes, light: &mut [f32], scratch: &mut [f32]) -> u32
    ensures { LightBlurred axes light.old scratch.old result light.new scratch.new }
{
    names::told(blurs::light_blur(axes, light, scratch))
}

#[unsafe(no_mangle)]
pub extern "C" fn geaidnosa_coefficient_blur(
    axes: Axes,
    volume: &mut [f32],
    scratch: &mut [f32],
) -> u32
    ensures { CoefficientsBlurred axes volume.old scratch.old result volume.new scratch.new }
{
    names::told(blurs::coefficient_blur(axes, volume, scratch))
}

#[unsafe(no_mangle)]
pub extern "C" fn geaidnosa_sun(
    axes: Axes,
    corners: Corners,
    points: &[f32],
    uses: &[u32],
    kinds: &[u8],
    numbers: &[f32],
    direction: Vec3,
    active: &[u64],
    light: &mut [f32],
    scratch: &mut [f32],
    distances: &mut [f32],
    places: &mut [usize],
) -> Sunned
    ensures { SunAnswered false axes corners (scene_of points.now uses.now kinds.now numbers.now) direction active.now light.old scratch.old distances.old places.old result light.new scratch.new distances.new places.new }
{
    sun::sun(
        axes, corners, points, uses, kinds, numbers, direction, active, light, scratch, distances,
        places,
    )
    .into()
}

#[unsafe(no_mangle)]
pub extern "C" fn geaidnosa_solid_sun(
    axes: Axes,
    corners: Corners,
    points: &[f32],
    uses: &[u32],
    kinds: &[u8],
    numbers: &[f32],
    direction: Vec3,
    active: &[u64],
    light: &mut [f32],
    scratch: &mut [f32],
) -> Sunned
    ensures { SolidSunAnswered axes corners (scene_of points.now uses.now kinds.now numbers.now) direction active.now light.old scratch.old result light.new scratch.new }
{
    sun::solid_sun(
        axes, corners, points, uses, kinds, numbers, direction, active, light, scratch,
    )
    .into()
}

#[unsafe(no_mangle)]
pub extern "C" fn geaidnosa_tree_sun(
    axes: Axes,
    corners: Corners,
    points: &[f32],
    uses: &[u32],
    kinds: &[u8],
    numbers: &[f32],
    boxes: &[f32],
    nodes: &[u32],
    order: &[u32],
    direction: Vec3,
    active: &[u64],
    light: &mut [f32],
    scratch: &mut [f32],
    distances: &mut [f32],
    places: &mut [usize],
) -> Sunned
    ensures { TreeSunAnswered axes corners points.now uses.now kinds.now numbers.now boxes.now nodes.now order.now direction active.now light.old scratch.old distances.old places.old result light.new scratch.new distances.new places.new }
{
    sun::tree_sun(
        axes, corners, points, uses, kinds, numbers, boxes, nodes, order, direction, active, light,
        scratch, distances, places,
    )
    .into()
}

// ---- the bake

#[unsafe(no_mangle)]
pub extern "C" fn geaidnosa_bake(
    axes: Axes,
    corners: Corners,
    points: &[f32],
    uses: &[u32],
    kinds: &[u8],
    numbers: &[f32],
    light: Light,
    ambient: Ambient,
    sky: &[f32],
    lamps: &[f32],
    active: &[u64],
    lights: &[f32],
    volume: &mut [f32],
    scratch: &mut [f32],
    distances: &mut [f32],
    places: &mut [usize],
    progress: Progress,
    allowance: u64,
) -> BakeAnswer
    ensures { Baked
        (input_of axes corners (scene_of points.now uses.now kinds.now numbers.now)
        light ambient sky.now lamps.now active.now lights.now
        (length distances.old) (length places.old))
        (stage progress volume.old scratch.old) allowance
        result volume.new scratch.new distances.old distances.new places.old places.new }
{
    let answer = bake::bake(
        axes, corners, points, uses, kinds, numbers, light, ambient, sky, lamps, active, lights,
        volume, scratch, distances, places, progress, allowance,
    );
    BakeAnswer::of(answer, progress)
}

#[unsafe(no_mangle)]
pub extern "C" fn geaidnosa_solid_bake(
    axes: Axes,
    corners: Corners,
    points: &[f32],
    uses: &[u32],
    kinds: &[u8],
    numbers: &[f32],
    light: Light,
    ambient: Ambient,
    sky: &[f32],
    lamps: &[f32],
    active: &[u64],
    lights: &[f32],
    volume: &mut [f32],
    scratch: &mut [f32],
    progress: Progress,
    allowance: u64,
) -> BakeAnswer
    ensures { SolidBaked
        (solid_input axes corners (scene_of points.now uses.now kinds.now numbers.now)
        light ambient sky.now lamps.now active.now lights.now)
        (stage progress volume.old scratch.old) allowance
        result volume.new scratch.new }
{
    let answer = bake::solid_bake(
        axes, corners, points, uses, kinds, numbers, light, ambient, sky, lamps, active, lights,
        volume, scratch, progress, allowance,
    );
    BakeAnswer::of(answer, progress)
}

#[unsafe(no_mangle)]
pub extern "C" fn geaidnosa_tree_bake(
    axes: Axes,
    corners: Corners,
    points: &[f32],
    uses: &[u32],
    kinds: &[u8],
    numbers: &[f32],
    boxes: &[f32],
    nodes: &[u32],
    order: &[u32],
    light: Light,
    ambient: Ambient,
    sky: &[f32],
    lamps: &[f32],
    active: &[u64],
    lights: &[f32],
    volume: &mut [f32],
    scratch: &mut [f32],
    distances: &mut [f32],
    places: &mut [usize],
    progress: Progress,
    allowance: u64,
) -> BakeAnswer
    ensures { Baked
        (input_of axes corners (tree_scene points.now uses.now kinds.now numbers.now boxes.now nodes.now order.now)
        light ambient sky.now lamps.now active.now lights.now
        (length distances.old) (length places.old))
        (stage progress volume.old scratch.old) allowance
        result volume.new scratch.new distances.old distances.new places.old places.new }
{
    let answer = bake::tree_bake(
        axes, corners, points, uses, kinds, numbers, boxes, nodes, order, light, ambient, sky,
        lamps, active, lights, volume, scratch, distances, places, progress, allowance,
    );
    BakeAnswer::of(answer, progress)
}

#[unsafe(no_mangle)]
pub extern "C" fn geaidnosa_join(
    axes: Axes,
    share: &[u64],
    unblurred: &[f32],
    joined: &mut [f32],
) -> u32
    ensures { Joined axes share.now unblurred.now joined.old result joined.new }
{
    names::told(join::join(axes, share, unblurred, joined))
}

// ---- lookups

#[unsafe(no_mangle)]
pub extern "C" fn geaidnosa_light_at(
    axes: Axes,
    corners: Corners,
    light: &[f32],
    position: Vec3,
) -> LightAt
    ensures { LightLookedUp axes corners light.now position result }
{
    lookup::light_at(axes, corners, light, position).into()
}

#[unsafe(no_mangle)]
pub extern "C" fn geaidnosa_coefficients_at(
    axes: Axes,
    corners: Corners,
    volume: &[f32],
    position: Vec3,
) -> CoefficientsAt
    ensures { CoefficientsLookedUp axes corners volume.now position result }
{
    lookup::coefficients_at(axes, corners, volume, position).into()
}

// The part itself cannot be handed back over C: the caller reads sixteen numbers from the start on, in the list that it chose, and copies none.
#[unsafe(no_mangle)]
pub extern "C" fn geaidnosa_voxel_part(
    axes: Axes,
    volume: &[f32],
    scratch: &[f32],
    index: usize,
    unblurred: u8,
) -> PartStart
    ensures { PartTold axes volume.now scratch.now index unblurred result }
{
    match lookup::voxel_refusal(axes, volume, scratch, index, unblurred != 0) {
        Ok(()) => PartStart {
            refusal: 0,
            start: index * 16,
        },
        Err(refusal) => PartStart {
            refusal: u32::from(refusal),
            start: 0,
        },
    }
}

#[unsafe(no_mangle)]
pub extern "C" fn geaidnosa_voxel_refusal(
    axes: Axes,
    volume: &[f32],
    scratch: &[f32],
    index: usize,
    unblurred: u8,
) -> u32
    ensures { PartJudged axes volume.now scratch.now index (chosen unblurred) result }
{
    names::told(lookup::voxel_refusal(axes, volume, scratch, index, unblurred != 0))
}

#[unsafe(no_mangle)]
pub extern "C" fn geaidnosa_frame_lights(
    axes: Axes,
    corners: Corners,
    light: &[f32],
    positions: &[f32],
    answers: &mut [f32],
) -> FirstRefusal
    ensures { LightsFramed axes corners light.now positions.now answers.old result answers.new }
{
    frames::frame_lights(axes, corners, light, positions, answers).into()
}

#[unsafe(no_mangle)]
pub extern "C" fn geaidnosa_frame_coefficients(
    axes: Axes,
    corners: Corners,
    volume: &[f32],
    positions: &[f32],
    answers: &mut [f32],
) -> FirstRefusal
    ensures { CoefficientsFramed axes corners volume.now positions.now answers.old result answers.new }
{
    frames::frame_coefficients(axes, corners, volume, positions, answers).into()
}

// ---- the volume file

#[unsafe(no_mangle)]
pub extern "C" fn geaidnosa_file_axes(bytes: &[u8]) -> Head
    ensures { FileAxes bytes.now result }
{
    Head::from(volume::file_axes(bytes))
}

#[unsafe(no_mangle)]
pub extern "C" fn geaidnosa_volume_bytes(axes: Axes) -> Needed
    ensures { VolumeBytes axes result }
{
    Needed::from(volume::volume_bytes(axes))
}

#[unsafe(no_mangle)]
pub extern "C" fn geaidnosa_read_volume(
    bytes: &[u8],
    light: &mut [f32],
    volume: &mut [f32],
    occupied: &mut [u64],
    active: &mut [u64],
) -> Head
    ensures { VolumeRead bytes.now light.old volume.old active.old occupied.old result light.new volume.new active.new occupied.new }
{
    Head::from(volume::read_volume(bytes, light, volume, occupied, active))
}

#[unsafe(no_mangle)]
pub extern "C" fn geaidnosa_write_volume(
    axes: Axes,
    corners: Corners,
    light: &[f32],
    volume: &[f32],
    occupied: &[u64],
    active: &[u64],
    bytes: &mut [u8],
) -> u32
    ensures { VolumeWritten axes corners light.now volume.now active.now occupied.now bytes.old result bytes.new }
{
    names::told(volume::write_volume(axes, corners, light, volume, occupied, active, bytes))
}

#[unsafe(no_mangle)]
pub extern "C" fn geaidnosa_file_figures(bytes: &[u8]) -> Figures
    ensures { FileFigures bytes.now result }
{
    Figures::from(volume::file_figures(bytes))
}

// ---- the float functions, on bit patterns

#[unsafe(no_mangle)]
pub extern "C" fn geaidnosa_root_bits(bits: u32) -> u32
    ensures { result ≡ on_bits root_of bits }
{
    floats::root_bits(bits)
}

#[unsafe(no_mangle)]
pub extern "C" fn geaidnosa_floor_bits(bits: u32) -> u32
    ensures { result ≡ on_bits floor_of bits }
{
    floats::floor_bits(bits)
}

#[unsafe(no_mangle)]
pub extern "C" fn geaidnosa_ceiling_bits(bits: u32) -> u32
    ensures { result ≡ on_bits ceiling_of bits }
{
    floats::ceiling_bits(bits)
}

#[unsafe(no_mangle)]
pub extern "C" fn geaidnosa_magnitude_bits(bits: u32) -> u32
    ensures { result ≡ on_bits magnitude_of bits }
{
    floats::magnitude_bits(bits)
}

#[unsafe(no_mangle)]
pub extern "C" fn geaidnosa_larger_bits(first: u32, second: u32) -> u32
    ensures { result ≡ on_both larger_of first second }
{
    floats::larger_bits(first, second)
}

#[unsafe(no_mangle)]
pub extern "C" fn geaidnosa_smaller_bits(first: u32, second: u32) -> u32
    ensures { result ≡ on_both smaller_of first second }
{
    floats::smaller_bits(first, second)
}

// ---- what stands for an enum

fn met_told(m: Met) -> RayHit
    ensures { values_of result ≡ values_of_met m }
{
    match m {
        Met::Refused(refusal) => no_hit(refusal),
        Met::Miss => no_hit(0),
        Met::Hit(t, u, v, front) => hit_at(0, t, u, v, front),
    }
}

fn found_told(f: Found) -> RayHit
    ensures { values_of result ≡ values_of_found f }
{
    match f {
        Found::Refused(refusal) => no_hit(refusal),
        Found::Nothing => no_hit(0),
        Found::Hit(place, t, u, v, front) => hit_at(place, t, u, v, front),
    }
}

fn no_hit(refusal: u32) -> RayHit
    ensures { values_of result ≡ refused_values refusal }
{
    RayHit {
        refusal,
        hit: 0,
        place: 0,
        t: 0.0,
        u: 0.0,
        v: 0.0,
        front: 0,
    }
}

fn hit_at(place: usize, t: f32, u: f32, v: f32, front: bool) -> RayHit
    ensures { values_of result ≡ hit_values place t u v front }
{
    let side = as_number(front);
    RayHit {
        refusal: 0,
        hit: 1,
        place,
        t,
        u,
        v,
        front: side,
    }
}

fn as_number(front: bool) -> u32
    ensures { result ≡ cond front 1 0 }
{
    if front { 1 } else { 0 }
}
