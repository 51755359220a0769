// The steps of a voxel's gathering, over a scene whose lists fit each other.
ghost use Rattle.std.specs.Prelude.{◌≡◌, ◌+◌, ◌*◌, ◌≤◌, ◌<◌, length};
ghost use Rattle.names.specs.Numbers.{primary_rays, lamp_limit, sky_numbers};
ghost use Rattle.limits.specs.Limits.{lamp_count};
ghost use Rattle.names.specs.Scene.{Sound, scene_for, HitsFit};
ghost use Rattle.tracing.specs.Through.{Through};
ghost use Rattle.directions.specs.Table.{directions};
ghost use Rattle.grid.specs.Grid.{AxesWithin, voxels, x_of, y_of, z_of, centre_from};
ghost use Rattle.gather.specs.Gather.{setting_of, direction_at, primary_ray, sent_back, incoming_of, gathered_along, gathering_of, nothing_gathered, finished_of, ambient_of, sky_seen, with_four, sixteen_of, set_at, Gatherable, Gathered, gather_of};

use super::{Gathering, Incoming};
use grid::{Axes, Corners};
use harmonics::Coefficients;
use limits::{Ambient, Light};
use surface::{Setting, Traced};
use vectors::{Ray, Vec3};

// ---- a voxel

// Writes the sixteen numbers of voxel i, and says how many rays they took.
pub fn gather_voxel(
    axes: Axes,
    corners: Corners,
    points: &[f32],
    uses: &[u32],
    kinds: &[u8],
    numbers: &[f32],
    boxed: bool,
    boxes: &[f32],
    nodes: &[u32],
    order: &[u32],
    rows: &[f32],
    light: Light,
    ambient: Ambient,
    sky: &[f32],
    lamps: &[f32],
    table: &[f32; 1728],
    lights: &[f32],
    distances: &mut [f32],
    places: &mut [usize],
    i: usize,
    out: &mut [f32],
) -> u64
    requires gatherable { Gatherable (gather_of axes corners (scene_for boxed points.now uses.now kinds.now numbers.now boxes.now nodes.now order.now) light ambient sky.now lamps.now lights.now) i (length distances.old) (length places.old) (length out.old) }
    requires table_value { table.now ≡ directions }
    requires through { Through (scene_for boxed points.now uses.now kinds.now numbers.now boxes.now nodes.now order.now) rows.now }
    ensures { Gathered (gather_of axes corners (scene_for boxed points.now uses.now kinds.now numbers.now boxes.now nodes.now order.now) light ambient sky.now lamps.now lights.now) i result out.new }
{
    let edges = grid::inner::edges(corners, axes);
    let setting = setting_of(edges, light, ambient);
    let centre = grid::inner::centre_of(corners.min, axes, edges, i);
    let first = first_of(axes, i);
    let all = gather_all(
        points, uses, kinds, numbers, boxed, boxes, nodes, order, rows, lamps, setting, centre,
        sky, table, first, distances, places,
    );
    let done = finish(all.sums, coefficients_of(ambient));
    let seen = sky_seen(all.misses);
    write_sixteen(out, done, lights[i], seen);
    all.rays
}

// What the surfaces are lit by, and the biases, from a voxel's edges.
#[tactic(auto, unfolding(crate::specs::Gather::setting_of))]
pub fn setting_of(edges: Vec3, light: Light, ambient: Ambient) -> Setting
    ensures { result ≡ setting_of edges light ambient }
{
    let biases = bounce::inner::biases_of(
        vectors::length(edges),
        grid::inner::smallest_edge(edges),
    );
    Setting {
        biases,
        toward: vectors::normalise(light.direction),
        colour: light.colour,
        ambient: coefficients_of(ambient),
    }
}

// Where the directions of voxel i begin.
fn first_of(axes: Axes, i: usize) -> usize
    requires { AxesWithin axes }
    ensures { result ≡ set_at axes i * primary_rays }
{
    let row = i / axes.width;
    directions::set_of_voxel(i % axes.width, row % axes.height, row / axes.height) * 64
}

// Along the 64 directions that begin at `first`.
fn gather_all(
    points: &[f32],
    uses: &[u32],
    kinds: &[u8],
    numbers: &[f32],
    boxed: bool,
    boxes: &[f32],
    nodes: &[u32],
    order: &[u32],
    rows: &[f32],
    lamps: &[f32],
    setting: Setting,
    centre: Vec3,
    sky: &[f32],
    table: &[f32; 1728],
    first: usize,
    distances: &mut [f32],
    places: &mut [usize],
) -> Gathering
    requires sound { Sound (scene_for boxed points.now uses.now kinds.now numbers.now boxes.now nodes.now order.now) }
    requires lamps_bound { lamp_count lamps.now ≤ lamp_limit }
    requires hits_fit { HitsFit (scene_for boxed points.now uses.now kinds.now numbers.now boxes.now nodes.now order.now) (length distances.old) (length places.old) }
    requires sky_len { (length sky.now ≡ sky_numbers) × (table.now ≡ directions) × (first + 64 ≤ 576) }
    requires through { Through (scene_for boxed points.now uses.now kinds.now numbers.now boxes.now nodes.now order.now) rows.now }
    ensures { result ≡ gathering_of (scene_for boxed points.now uses.now kinds.now numbers.now boxes.now nodes.now order.now) lamps.now setting centre sky.now first }
{
    let mut gathering = nothing();
    for i in 0..64 {
        gathering = gather_along(
            points,
            uses,
            kinds,
            numbers,
            boxed,
            boxes,
            nodes,
            order,
            rows,
            lamps,
            setting,
            centre,
            sky,
            table,
            first + i,
            gathering,
            distances,
            places,
        );
    }
    gathering
}

// Nothing gathered yet.
fn nothing() -> Gathering
    ensures { result ≡ nothing_gathered }
{
    let dark = Vec3 {
        x: 0.0,
        y: 0.0,
        z: 0.0,
    };
    Gathering {
        sums: Coefficients {
            c0: dark,
            c1: dark,
            c2: dark,
            c3: dark,
        },
        misses: 0,
        rays: 0,
    }
}

// With what comes along direction k of the table; its sky is triple k.
#[tactic(auto, unfolding(crate::specs::Gather::gathered_along))]
fn gather_along(
    points: &[f32],
    uses: &[u32],
    kinds: &[u8],
    numbers: &[f32],
    boxed: bool,
    boxes: &[f32],
    nodes: &[u32],
    order: &[u32],
    rows: &[f32],
    lamps: &[f32],
    setting: Setting,
    centre: Vec3,
    sky: &[f32],
    table: &[f32; 1728],
    k: usize,
    gathering: Gathering,
    distances: &mut [f32],
    places: &mut [usize],
) -> Gathering
    requires sound { Sound (scene_for boxed points.now uses.now kinds.now numbers.now boxes.now nodes.now order.now) }
    requires lamps_bound { lamp_count lamps.now ≤ lamp_limit }
    requires hits_fit { HitsFit (scene_for boxed points.now uses.now kinds.now numbers.now boxes.now nodes.now order.now) (length distances.old) (length places.old) }
    requires sky_len { (length sky.now ≡ sky_numbers) × (table.now ≡ directions) × (k < 576) }
    requires rays_bound { (gathering.rays < 65536) × (gathering.misses < 65536) }
    requires through { Through (scene_for boxed points.now uses.now kinds.now numbers.now boxes.now nodes.now order.now) rows.now }
    ensures { result ≡ gathered_along (scene_for boxed points.now uses.now kinds.now numbers.now boxes.now nodes.now order.now) lamps.now setting centre sky.now k gathering }
{
    let direction = direction_at(table, k);
    let above = vectors::inner::vec_at(sky, k * 3);
    let ray = primary_ray(setting, centre, direction);
    let back = look(
        points, uses, kinds, numbers, boxed, boxes, nodes, order, rows, lamps, setting, ray, above,
        distances, places,
    );
    let sums = harmonics::inner::add_radiance(gathering.sums, direction, back.radiance);
    Gathering {
        sums,
        misses: gathering.misses + back.misses,
        rays: gathering.rays + back.rays,
    }
}

// ---- one primary ray

// From the centre, moved along the direction by the primary bias.
#[tactic(auto, unfolding(crate::specs::Gather::primary_ray))]
pub fn primary_ray(setting: Setting, centre: Vec3, direction: Vec3) -> Ray
    ensures { result ≡ primary_ray setting centre direction }
{
    vectors::inner::ray_from(
        centre,
        direction,
        setting.biases.primary,
        setting.biases.shortest,
    )
}

// Direction k of the table.
fn direction_at(table: &[f32; 1728], k: usize) -> Vec3
    requires table_value { table.now ≡ directions }
    requires k_bound { k < 576 }
    ensures { result ≡ direction_at k }
{
    let n = k * 3;
    Vec3 {
        x: table[n],
        y: table[n + 1],
        z: table[n + 2],
    }
}

// What comes back along a ray: from the sky where nothing is met, else from the surface.
#[tactic(auto, unfolding(crate::specs::Gather::incoming_by))]
fn look(
    points: &[f32],
    uses: &[u32],
    kinds: &[u8],
    numbers: &[f32],
    boxed: bool,
    boxes: &[f32],
    nodes: &[u32],
    order: &[u32],
    rows: &[f32],
    lamps: &[f32],
    setting: Setting,
    ray: Ray,
    sky: Vec3,
    distances: &mut [f32],
    places: &mut [usize],
) -> Incoming
    requires sound { Sound (scene_for boxed points.now uses.now kinds.now numbers.now boxes.now nodes.now order.now) }
    requires lamps_bound { lamp_count lamps.now ≤ lamp_limit }
    requires hits_fit { HitsFit (scene_for boxed points.now uses.now kinds.now numbers.now boxes.now nodes.now order.now) (length distances.old) (length places.old) }
    requires through { Through (scene_for boxed points.now uses.now kinds.now numbers.now boxes.now nodes.now order.now) rows.now }
    ensures { result ≡ incoming_of (scene_for boxed points.now uses.now kinds.now numbers.now boxes.now nodes.now order.now) lamps.now setting ray sky }
{
    let found = tracing::inner::nearest(
        points, uses, kinds, numbers, boxed, boxes, nodes, order, rows, ray,
    );
    match found {
        None => Incoming {
            radiance: sky,
            misses: 1,
            rays: 1,
        },
        Some(met) => {
            let sent = from_surface(
                points, uses, kinds, numbers, boxed, boxes, nodes, order, rows, lamps, setting,
                ray, met.place, met.hit.t, distances, places,
            );
            Incoming {
                radiance: sent.light,
                misses: 0,
                rays: sent.rays + 1,
            }
        }
    }
}

// What a surface sends back along a ray that has met it.
fn from_surface(
    points: &[f32],
    uses: &[u32],
    kinds: &[u8],
    numbers: &[f32],
    boxed: bool,
    boxes: &[f32],
    nodes: &[u32],
    order: &[u32],
    rows: &[f32],
    lamps: &[f32],
    setting: Setting,
    ray: Ray,
    place: usize,
    distance: f32,
    distances: &mut [f32],
    places: &mut [usize],
) -> Traced
    requires sound { Sound (scene_for boxed points.now uses.now kinds.now numbers.now boxes.now nodes.now order.now) }
    requires lamps_bound { lamp_count lamps.now ≤ lamp_limit }
    requires hits_fit { HitsFit (scene_for boxed points.now uses.now kinds.now numbers.now boxes.now nodes.now order.now) (length distances.old) (length places.old) }
    requires place_in_bounds { place < length uses.now }
    requires through { Through (scene_for boxed points.now uses.now kinds.now numbers.now boxes.now nodes.now order.now) rows.now }
    ensures { result ≡ sent_back (scene_for boxed points.now uses.now kinds.now numbers.now boxes.now nodes.now order.now) lamps.now setting ray place distance }
{
    let surface = surface::inner::surface_at(
        points,
        uses,
        kinds,
        numbers,
        ray,
        place,
        distance,
        setting.biases.hit,
    );
    surface::inner::bounce_light(
        points, uses, kinds, numbers, boxed, boxes, nodes, order, rows, lamps, setting, surface,
        distances, places,
    )
}

// ---- its sixteen numbers

// Irradiance, raised to 0, and blended towards the brightness floor where it is darker.
#[tactic(auto, unfolding(crate::specs::Gather::finished_of))]
fn finish(sums: Coefficients, ambient: Coefficients) -> Coefficients
    ensures { result ≡ finished_of sums ambient }
{
    harmonics::inner::floor_brightness(
        harmonics::inner::raise_each(harmonics::inner::irradiance(sums)),
        ambient,
    )
}

fn coefficients_of(ambient: Ambient) -> Coefficients
    ensures { result ≡ ambient_of ambient }
{
    Coefficients {
        c0: ambient.c0,
        c1: ambient.c1,
        c2: ambient.c2,
        c3: ambient.c3,
    }
}

// misses/64
fn sky_seen(misses: usize) -> f32
    requires { misses < 65536 }
    ensures { result ≡ sky_seen misses }
{
    grid::inner::float(misses) / 64.0
}

// The sixteen numbers: coefficient after coefficient, x, y, z and a fourth place.
fn write_sixteen(out: &mut [f32], coefficients: Coefficients, light: f32, seen: f32)
    requires { length out.old ≡ 16 }
    ensures { out.new ≡ sixteen_of coefficients light seen }
{
    write_four(out, 0, coefficients.c0, light);
    write_four(out, 4, coefficients.c1, seen);
    write_four(out, 8, coefficients.c2, 0.0);
    write_four(out, 12, coefficients.c3, 0.0);
}

// Four numbers from a place on: a colour, and a fourth.
#[tactic(auto, unfolding(crate::specs::Gather::with_four))]
fn write_four(out: &mut [f32], at: usize, colour: Vec3, fourth: f32)
    requires { at + 3 < length out.old }
    ensures { out.new ≡ with_four out.old at colour fourth }
{
    out[at] = colour.x;
    out[at + 1] = colour.y;
    out[at + 2] = colour.z;
    out[at + 3] = fourth;
}
