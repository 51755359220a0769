// Holds the oracle's recorded rays: every ray that the bake of a small scene fires, in the order that they are traced, as the port's own ray
// functions make them: the voxel, what is asked along it, and each bit of its origin, its direction and its two bounds; and their number.
#![tactic(auto)]

ghost use Rattle.std.specs.Prelude.{◌≡◌, ◌<◌};
ghost use Rattle.names.specs.Scene.{Sound, scene_of};
ghost use Rattle.grid.specs.Grid.{AxesWithin, voxels};

use grid::Axes;
use limits::Lamp;
use replay::{Tally, Words};
use replay_values::SceneLists;
use surface::{Setting, Surface};
use vectors::{Ray, Vec3};

// What is asked along a ray: the nearest hit, or how much light passes.
const NEAREST: u32 = 0;

const PASSES: u32 = 1;

// What was compared so far, the recorded rays that are left, how many rays were listed, and the voxel that they are of.
#[derive(Clone, Copy)]
struct Listing<'a> {
    tally: Tally,
    left: Words<'a>,
    rays: u64,
    voxel: usize,
}

// A bake whose lists fit each other and whose axes are within the limits.
#[derive(Clone, Copy)]
struct Bake<'a> {
    values: Words<'a>,
    axes: Axes,
    points: &'a [f32],
    uses: &'a [u32],
    kinds: &'a [u8],
    numbers: &'a [f32],
    lamps: &'a [f32],
    ghost sound: { Sound (scene_of points.now uses.now kinds.now numbers.now) },
    ghost axes_within: { AxesWithin axes },
}

// ---- one ray

// Whether three numbers have the recorded bits.
fn is_vector(w: Words, v: Vec3) -> bool {
    w.is_number(0, v.x) & w.is_number(1, v.y) & w.is_number(2, v.z)
}

// Whether a ray has the recorded bits: origin, direction, shortest, longest.
fn is_ray(w: Words, ray: Ray) -> bool {
    is_vector(w, ray.origin)
        & is_vector(w.skip(3), ray.direction)
        & w.is_number(6, ray.shortest)
        & w.is_number(7, ray.longest)
}

impl<'a> Listing<'a> {
    // Holds the next ray to the next recorded one: its voxel, what is asked along it, and its eight numbers.
    fn fire(self, asked: u32, ray: Ray) -> Listing<'a> {
        let recorded = self.left;
        let same = (recorded.count(0) == self.voxel)
            & (recorded.word(1) == asked)
            & is_ray(recorded.skip(2), ray);
        Listing {
            tally: self.tally.held(same),
            left: recorded.skip(10),
            rays: self.rays.saturating_add(1).min(replay::MOST),
            voxel: self.voxel,
        }
    }
}

// ---- the rays of a surface

// The four rays over the hemisphere.
fn sky_rays<'a>(listing: Listing<'a>, setting: Setting, surface: Surface) -> Listing<'a> {
    let table = bounce::inner::hemisphere_table();
    let basis = bounce::inner::basis_of(surface.normal);
    let mut so_far = listing;
    for j in 0..4 {
        let ray = surface::inner::sky_ray(setting, surface, basis, &table, j);
        so_far = so_far.fire(PASSES, ray);
    }
    so_far
}

// The ray to the sun, where the sun is above the surface.
fn sun_ray<'a>(listing: Listing<'a>, setting: Setting, surface: Surface) -> Listing<'a> {
    if bounce::inner::slant(surface.normal, setting.toward) > 0.0 {
        return listing.fire(PASSES, surface::inner::shadow_ray(setting, surface));
    }
    listing
}

// The rays to the lamps that reach the surface, in list order.
fn lamp_rays<'a>(
    listing: Listing<'a>,
    lamps: &[f32],
    setting: Setting,
    surface: Surface,
) -> Listing<'a> {
    let mut so_far = listing;
    for j in 0..limits::inner::lamp_count(lamps) {
        let lamp = limits::inner::lamp_at(lamps, j);
        so_far = lamp_ray(so_far, setting, surface, lamp);
    }
    so_far
}

// The ray to a lamp, where the lamp reaches the surface.
fn lamp_ray<'a>(
    listing: Listing<'a>,
    setting: Setting,
    surface: Surface,
    lamp: Lamp,
) -> Listing<'a> {
    let way = bounce::inner::way_to(surface.point, lamp.position);
    if bounce::inner::unlit(surface.normal, way) {
        return listing;
    }
    listing.fire(PASSES, surface::inner::lamp_ray(setting, surface, way))
}

// None where the surface is black; else to the sun, over the hemisphere and to the lamps, in this order.
fn surface_rays<'a>(
    listing: Listing<'a>,
    lamps: &[f32],
    setting: Setting,
    surface: Surface,
) -> Listing<'a> {
    if bounce::inner::black(surface.albedo, surface.emissive) {
        return listing;
    }
    let sun = sun_ray(listing, setting, surface);
    let sky = sky_rays(sun, setting, surface);
    lamp_rays(sky, lamps, setting, surface)
}

// ---- the rays of a voxel

// The primary ray along a direction, and the rays of the surface that it meets.
#[tactic(auto, using(gather::specs::GatherLaws::place_below))]
fn along<'a>(
    listing: Listing<'a>,
    bake: Bake,
    setting: Setting,
    centre: Vec3,
    direction: Vec3,
) -> Listing<'a> {
    let ray = gather::inner::primary_ray(setting, centre, direction);
    let first = listing.fire(NEAREST, ray);
    let found = scan::inner::nearest(bake.points, bake.uses, bake.kinds, bake.numbers, ray);
    match found {
        None => first,
        Some(met) => {
            let surface = surface::inner::surface_at(
                bake.points,
                bake.uses,
                bake.kinds,
                bake.numbers,
                ray,
                met.place,
                met.hit.t,
                setting.biases.hit,
            );
            surface_rays(first, bake.lamps, setting, surface)
        }
    }
}

// Direction k of the table.
fn direction_at(table: &[f32; 1728], k: usize) -> Vec3
    requires { k < 576 }
{
    let n = k * 3;
    Vec3 {
        x: table[n],
        y: table[n + 1],
        z: table[n + 2],
    }
}

// Along the 64 directions of a set.
fn along_all<'a>(
    listing: Listing<'a>,
    bake: Bake,
    setting: Setting,
    centre: Vec3,
    table: &[f32; 1728],
    set: usize,
) -> Listing<'a>
    requires { set < 9 }
{
    let mut so_far = listing;
    for k in 0..64 {
        let direction = direction_at(table, set * 64 + k);
        so_far = along(so_far, bake, setting, centre, direction);
    }
    so_far
}

// The set of directions that voxel i uses.
fn set_at(axes: Axes, i: usize) -> usize
    requires { AxesWithin axes }
    ensures { result < 9 }
{
    let row = i / axes.width;
    directions::set_of_voxel(i % axes.width, row % axes.height, row / axes.height)
}

fn voxel_rays<'a>(listing: Listing<'a>, bake: Bake, table: &[f32; 1728], i: usize) -> Listing<'a>
    requires { i < voxels bake.axes }
{
    let corners = replay_values::corners(bake.values.skip(7));
    let edges = grid::inner::edges(corners, bake.axes);
    let setting = gather::inner::setting_of(
        edges,
        replay_values::light(bake.values.skip(13)),
        replay_values::ambient(bake.values.skip(19)),
    );
    let centre = grid::inner::centre_of(corners.min, bake.axes, edges, i);
    let set = set_at(bake.axes, i);
    let voxel = Listing {
        voxel: i,
        ..listing
    };
    along_all(voxel, bake, setting, centre, table, set)
}

// ---- the rays of a bake

// Whether voxel i is active.
fn is_marked(active: &[u64], i: usize) -> bool {
    active
        .get(i / 64)
        .is_some_and(|word| (*word >> (i % 64)) & 1 == 1)
}

// The active voxels, in the order of their indices.
fn all_rays<'a>(listing: Listing<'a>, bake: Bake, active: &[u64]) -> Listing<'a> {
    let table = directions::table();
    let mut so_far = listing;
    for i in 0..grid::inner::voxel_count(bake.axes) {
        if is_marked(active, i) {
            so_far = voxel_rays(so_far, bake, &table, i);
        }
    }
    so_far
}

// Holds the port's rays to the recorded ones, which stand behind their number, and their number. A scene whose lists do not fit is no such record.
pub fn listed(
    values: Words,
    recorded: Words,
    t: Tally,
    scene: SceneLists,
    lamps: &[f32],
    active: &[u64],
) -> Tally {
    let axes = replay_values::axes(values.skip(1));
    let points = scene.points;
    let uses = scene.uses;
    let kinds = scene.kinds;
    let numbers = scene.numbers;
    if limits::inner::bad_axes(axes)
        || limits::inner::wrong_scene(points, uses, kinds, numbers)
        || limits::inner::too_many(uses.len(), kinds.len())
        || limits::inner::bad_materials_for(false, uses, kinds, numbers)
    {
        return t.held(false);
    }
    let bake = Bake {
        values,
        axes,
        points,
        uses,
        kinds,
        numbers,
        lamps,
    };
    let start = Listing {
        tally: t,
        left: recorded.skip(1),
        rays: 0,
        voxel: 0,
    };
    let done = all_rays(start, bake, active);
    done.tally.held(done.rays == u64::from(recorded.word(0)))
}
