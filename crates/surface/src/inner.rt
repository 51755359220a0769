// Surfaces of a scene whose lists fit each other (`Sound`): the tests of the public call have shown it. The rays stand as functions of
// their own, so that they can be listed and compared.
ghost use Rattle.std.specs.Prelude.{◌≡◌, ◌≤◌, ◌<◌, length};
ghost use Rattle.names.specs.Numbers.{lamp_limit};
ghost use Rattle.names.specs.Scene.{Sound, scene_of, scene_for, HitsFit};
ghost use Rattle.tracing.specs.Through.{Through};
ghost use Rattle.limits.specs.Limits.{lamp_count};
ghost use Rattle.bounce.specs.Hemisphere.{hemisphere};
ghost use Rattle.surface.specs.Surface.{surface_of, shadow_ray, sky_ray_in, lamp_ray, seen_by, seen_of, sun_of, sky_of, daylight_of, lit_by, fallen_on, bounced_by};

use super::{Seen, Setting, Surface, Traced};
use bounce::{Basis, Way};
use limits::Lamp;
use vectors::{Ray, Vec3};

// ---- what a ray has met

// The surface that a ray has met at a place and a distance.
#[tactic(auto, unfolding(crate::specs::Surface::surface_of))]
pub fn surface_at(
    points: &[f32],
    uses: &[u32],
    kinds: &[u8],
    numbers: &[f32],
    ray: Ray,
    place: usize,
    distance: f32,
    hit: f32,
) -> Surface
    requires sound { Sound (scene_of points.now uses.now kinds.now numbers.now) }
    requires place_in_bounds { place < length uses.now }
    ensures { result ≡ surface_of (scene_of points.now uses.now kinds.now numbers.now) ray place distance hit }
{
    let face = bounce::inner::face_normal(triangle::inner::at(points, place));
    let normal = bounce::inner::facing(face, ray.direction);
    let met = vectors::inner::point_at(ray.origin, ray.direction, distance);
    let point = vectors::inner::point_at(met, normal, hit);
    let k = uses[place] as usize * 7;
    let albedo = vectors::clamp_each(vectors::inner::vec_at(numbers, k));
    let emissive = harmonics::inner::raise(vectors::inner::vec_at(numbers, k + 3));
    Surface {
        point,
        normal,
        albedo,
        emissive,
    }
}

// ---- the light on it

// What a surface sends back, and the rays that this takes: at most five, and one for each lamp.
#[tactic(auto, unfolding(crate::specs::Surface::bounced_by))]
pub fn bounce_light(
    points: &[f32],
    uses: &[u32],
    kinds: &[u8],
    numbers: &[f32],
    boxed: bool,
    boxes: &[f32],
    nodes: &[u32],
    order: &[u32],
    rows: &[f32],
    lamps: &[f32],
    setting: Setting,
    surface: Surface,
    distances: &mut [f32],
    places: &mut [usize],
) -> Traced
    requires sound { Sound (scene_for boxed points.now uses.now kinds.now numbers.now boxes.now nodes.now order.now) }
    requires lamps_bound { lamp_count lamps.now ≤ lamp_limit }
    requires hits_fit { HitsFit (scene_for boxed points.now uses.now kinds.now numbers.now boxes.now nodes.now order.now) (length distances.old) (length places.old) }
    requires through { Through (scene_for boxed points.now uses.now kinds.now numbers.now boxes.now nodes.now order.now) rows.now }
    ensures { result ≡ bounced_by (scene_for boxed points.now uses.now kinds.now numbers.now boxes.now nodes.now order.now) lamps.now setting surface }
{
    if bounce::inner::black(surface.albedo, surface.emissive) {
        let none = Vec3 {
            x: 0.0,
            y: 0.0,
            z: 0.0,
        };
        return Traced {
            light: none,
            rays: 0,
        };
    }
    let fallen = light_fallen(
        points, uses, kinds, numbers, boxed, boxes, nodes, order, rows, lamps, setting, surface,
        distances, places,
    );
    let light = bounce::inner::reflect(surface.albedo, surface.emissive, fallen.light);
    Traced {
        light,
        rays: fallen.rays,
    }
}

// The light that falls on a surface: sun plus sky, and to that the lamps, one by one in list order.
fn light_fallen(
    points: &[f32],
    uses: &[u32],
    kinds: &[u8],
    numbers: &[f32],
    boxed: bool,
    boxes: &[f32],
    nodes: &[u32],
    order: &[u32],
    rows: &[f32],
    lamps: &[f32],
    setting: Setting,
    surface: Surface,
    distances: &mut [f32],
    places: &mut [usize],
) -> Traced
    requires sound { Sound (scene_for boxed points.now uses.now kinds.now numbers.now boxes.now nodes.now order.now) }
    requires lamps_bound { lamp_count lamps.now ≤ lamp_limit }
    requires hits_fit { HitsFit (scene_for boxed points.now uses.now kinds.now numbers.now boxes.now nodes.now order.now) (length distances.old) (length places.old) }
    requires through { Through (scene_for boxed points.now uses.now kinds.now numbers.now boxes.now nodes.now order.now) rows.now }
    ensures { result ≡ fallen_on (scene_for boxed points.now uses.now kinds.now numbers.now boxes.now nodes.now order.now) lamps.now setting surface }
{
    let mut fallen = light_day(
        points, uses, kinds, numbers, boxed, boxes, nodes, order, rows, setting, surface,
        distances, places,
    );
    let n = limits::inner::lamp_count(lamps);
    for j in 0..n {
        let lamp = limits::inner::lamp_at(lamps, j);
        fallen = light_lamp(
            points, uses, kinds, numbers, boxed, boxes, nodes, order, rows, setting, surface, lamp,
            fallen, distances, places,
        );
    }
    fallen
}

// With a lamp's light added to what has fallen so far, where the lamp reaches the surface.
#[tactic(auto, unfolding(crate::specs::Surface::lit_by))]
fn light_lamp(
    points: &[f32],
    uses: &[u32],
    kinds: &[u8],
    numbers: &[f32],
    boxed: bool,
    boxes: &[f32],
    nodes: &[u32],
    order: &[u32],
    rows: &[f32],
    setting: Setting,
    surface: Surface,
    lamp: Lamp,
    fallen: Traced,
    distances: &mut [f32],
    places: &mut [usize],
) -> Traced
    requires sound { Sound (scene_for boxed points.now uses.now kinds.now numbers.now boxes.now nodes.now order.now) }
    requires hits_fit { HitsFit (scene_for boxed points.now uses.now kinds.now numbers.now boxes.now nodes.now order.now) (length distances.old) (length places.old) }
    requires rays_bound { fallen.rays < 65536 }
    requires through { Through (scene_for boxed points.now uses.now kinds.now numbers.now boxes.now nodes.now order.now) rows.now }
    ensures { result ≡ lit_by (scene_for boxed points.now uses.now kinds.now numbers.now boxes.now nodes.now order.now) setting surface lamp fallen }
{
    let way = bounce::inner::way_to(surface.point, lamp.position);
    if bounce::inner::unlit(surface.normal, way) {
        return fallen;
    }
    let ray = lamp_ray(setting, surface, way);
    let passed = tracing::inner::transmittance(
        points, uses, kinds, numbers, boxed, boxes, nodes, order, rows, ray, distances, places,
    );
    let light = bounce::inner::lamplight(lamp.colour, surface.normal, way, passed);
    let sum = vectors::add(fallen.light, light);
    Traced {
        light: sum,
        rays: fallen.rays + 1,
    }
}

// Sun plus sky.
#[tactic(auto, unfolding(crate::specs::Surface::daylight_of))]
fn light_day(
    points: &[f32],
    uses: &[u32],
    kinds: &[u8],
    numbers: &[f32],
    boxed: bool,
    boxes: &[f32],
    nodes: &[u32],
    order: &[u32],
    rows: &[f32],
    setting: Setting,
    surface: Surface,
    distances: &mut [f32],
    places: &mut [usize],
) -> Traced
    requires sound { Sound (scene_for boxed points.now uses.now kinds.now numbers.now boxes.now nodes.now order.now) }
    requires hits_fit { HitsFit (scene_for boxed points.now uses.now kinds.now numbers.now boxes.now nodes.now order.now) (length distances.old) (length places.old) }
    requires through { Through (scene_for boxed points.now uses.now kinds.now numbers.now boxes.now nodes.now order.now) rows.now }
    ensures { result ≡ daylight_of (scene_for boxed points.now uses.now kinds.now numbers.now boxes.now nodes.now order.now) setting surface }
{
    let sun = light_sun(
        points, uses, kinds, numbers, boxed, boxes, nodes, order, rows, setting, surface,
        distances, places,
    );
    let sky = light_sky(
        points, uses, kinds, numbers, boxed, boxes, nodes, order, rows, setting, surface,
        distances, places,
    );
    let light = vectors::add(sun.light, sky.light);
    Traced {
        light,
        rays: sun.rays + sky.rays,
    }
}

// The sun's light on a surface, where the sun is above it.
#[tactic(auto, unfolding(crate::specs::Surface::sun_of))]
fn light_sun(
    points: &[f32],
    uses: &[u32],
    kinds: &[u8],
    numbers: &[f32],
    boxed: bool,
    boxes: &[f32],
    nodes: &[u32],
    order: &[u32],
    rows: &[f32],
    setting: Setting,
    surface: Surface,
    distances: &mut [f32],
    places: &mut [usize],
) -> Traced
    requires sound { Sound (scene_for boxed points.now uses.now kinds.now numbers.now boxes.now nodes.now order.now) }
    requires hits_fit { HitsFit (scene_for boxed points.now uses.now kinds.now numbers.now boxes.now nodes.now order.now) (length distances.old) (length places.old) }
    requires through { Through (scene_for boxed points.now uses.now kinds.now numbers.now boxes.now nodes.now order.now) rows.now }
    ensures { result ≡ sun_of (scene_for boxed points.now uses.now kinds.now numbers.now boxes.now nodes.now order.now) setting surface }
{
    let slant = bounce::inner::slant(surface.normal, setting.toward);
    if slant > 0.0 {
        let ray = shadow_ray(setting, surface);
        let passed = tracing::inner::transmittance(
            points, uses, kinds, numbers, boxed, boxes, nodes, order, rows, ray, distances, places,
        );
        let light = bounce::inner::sunlight(setting.colour, slant, passed);
        return Traced { light, rays: 1 };
    }
    let light = Vec3 {
        x: 0.0,
        y: 0.0,
        z: 0.0,
    };
    Traced { light, rays: 0 }
}

// The sky's light on a surface.
#[tactic(auto, unfolding(crate::specs::Surface::sky_of))]
fn light_sky(
    points: &[f32],
    uses: &[u32],
    kinds: &[u8],
    numbers: &[f32],
    boxed: bool,
    boxes: &[f32],
    nodes: &[u32],
    order: &[u32],
    rows: &[f32],
    setting: Setting,
    surface: Surface,
    distances: &mut [f32],
    places: &mut [usize],
) -> Traced
    requires sound { Sound (scene_for boxed points.now uses.now kinds.now numbers.now boxes.now nodes.now order.now) }
    requires hits_fit { HitsFit (scene_for boxed points.now uses.now kinds.now numbers.now boxes.now nodes.now order.now) (length distances.old) (length places.old) }
    requires through { Through (scene_for boxed points.now uses.now kinds.now numbers.now boxes.now nodes.now order.now) rows.now }
    ensures { result ≡ sky_of (scene_for boxed points.now uses.now kinds.now numbers.now boxes.now nodes.now order.now) setting surface }
{
    let seen = see_sky(
        points, uses, kinds, numbers, boxed, boxes, nodes, order, rows, setting, surface,
        distances, places,
    );
    let light = bounce::inner::skylight(setting.ambient, surface.normal, seen.sum * 0.25);
    Traced {
        light,
        rays: seen.rays,
    }
}

// The sum of the transmittances along the four rays of the hemisphere.
fn see_sky(
    points: &[f32],
    uses: &[u32],
    kinds: &[u8],
    numbers: &[f32],
    boxed: bool,
    boxes: &[f32],
    nodes: &[u32],
    order: &[u32],
    rows: &[f32],
    setting: Setting,
    surface: Surface,
    distances: &mut [f32],
    places: &mut [usize],
) -> Seen
    requires sound { Sound (scene_for boxed points.now uses.now kinds.now numbers.now boxes.now nodes.now order.now) }
    requires hits_fit { HitsFit (scene_for boxed points.now uses.now kinds.now numbers.now boxes.now nodes.now order.now) (length distances.old) (length places.old) }
    requires through { Through (scene_for boxed points.now uses.now kinds.now numbers.now boxes.now nodes.now order.now) rows.now }
    ensures { result ≡ seen_of (scene_for boxed points.now uses.now kinds.now numbers.now boxes.now nodes.now order.now) setting surface }
{
    let table = bounce::inner::hemisphere_table();
    let basis = bounce::inner::basis_of(surface.normal);
    let mut seen = Seen { sum: 0.0, rays: 0 };
    for j in 0..4 {
        let ray = sky_ray(setting, surface, basis, &table, j);
        seen = see(
            points, uses, kinds, numbers, boxed, boxes, nodes, order, rows, ray, seen, distances,
            places,
        );
    }
    seen
}

// The transmittance along a ray, added to the sum.
#[tactic(auto, unfolding(crate::specs::Surface::seen_by))]
fn see(
    points: &[f32],
    uses: &[u32],
    kinds: &[u8],
    numbers: &[f32],
    boxed: bool,
    boxes: &[f32],
    nodes: &[u32],
    order: &[u32],
    rows: &[f32],
    ray: Ray,
    seen: Seen,
    distances: &mut [f32],
    places: &mut [usize],
) -> Seen
    requires sound { Sound (scene_for boxed points.now uses.now kinds.now numbers.now boxes.now nodes.now order.now) }
    requires hits_fit { HitsFit (scene_for boxed points.now uses.now kinds.now numbers.now boxes.now nodes.now order.now) (length distances.old) (length places.old) }
    requires rays_bound { seen.rays < 4 }
    requires through { Through (scene_for boxed points.now uses.now kinds.now numbers.now boxes.now nodes.now order.now) rows.now }
    ensures { result ≡ seen_by (scene_for boxed points.now uses.now kinds.now numbers.now boxes.now nodes.now order.now) ray seen }
{
    let passed = tracing::inner::transmittance(
        points, uses, kinds, numbers, boxed, boxes, nodes, order, rows, ray, distances, places,
    );
    Seen {
        sum: seen.sum + passed,
        rays: seen.rays + 1,
    }
}

// ---- its rays

// To the sun.
#[tactic(auto, unfolding(crate::specs::Surface::shadow_ray))]
pub fn shadow_ray(setting: Setting, surface: Surface) -> Ray
    ensures { result ≡ shadow_ray setting surface }
{
    vectors::inner::ray_from(
        surface.point,
        setting.toward,
        setting.biases.step,
        setting.biases.shortest,
    )
}

// To a lamp.
#[tactic(auto, unfolding(crate::specs::Surface::lamp_ray))]
pub fn lamp_ray(setting: Setting, surface: Surface, way: Way) -> Ray
    ensures { result ≡ lamp_ray setting surface way }
{
    bounce::inner::lamp_ray_from(surface.point, way, setting.biases.shortest)
}

// Along hemisphere direction j of the basis of a surface's normal.
#[tactic(auto, unfolding(crate::specs::Surface::sky_ray_in))]
pub fn sky_ray(setting: Setting, surface: Surface, basis: Basis, table: &[f32; 12], j: usize) -> Ray
    requires table_value { table.now ≡ hemisphere }
    requires j_bound { j < 4 }
    ensures { result ≡ sky_ray_in setting surface basis j }
{
    let direction = bounce::inner::sky_direction(basis, table, j);
    vectors::inner::ray_from(
        surface.point,
        direction,
        setting.biases.step,
        setting.biases.shortest,
    )
}
