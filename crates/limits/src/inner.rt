// One test for each row: true where the row's number is given. Each test stands alone, so that a call's chain can take them in any order.
ghost use Rattle.std.specs.Prelude.{◌≡◌, ◌<◌, ◌≤◌, cond, not, length, ltb, leb};
ghost use Rattle.grid.specs.Grid.{AxesWithin};
ghost use Rattle.names.specs.Numbers.{opaque_kind, last_kind, light_limit};
ghost use Rattle.lists.specs.Some.{some};
ghost use Rattle.limits.specs.Limits.{within, outside, up_to, outside_v, bad_axes, bad_corners, bad_edges, bad_grid, wrong_share, short_hits, wrong_scene, too_many, bad_points, bad_triangle, bad_kinds, bad_number, bad_numbers, bad_uses, bad_materials, bad_materials_for, bad_direction, bad_colour, bad_light, bad_ambient, bad_sky, bad_ray, bad_position, bad_mask, bad_lights, bad_coefficients, lamp_count, lamp_at, bad_lamp, bad_lamps};

use super::{Ambient, Lamp, Light};
use grid::{Axes, Corners};
use names::{
    AXIS_LIMIT, COEFFICIENT_LIMIT, COLOUR_LIMIT, DIRECTION_LIMIT, EDGE_LIMIT, LAMP_LIMIT,
    LAST_KIND, LIGHT_DIRECTION_LIMIT, LIGHT_LIMIT, MATERIAL_LIMIT, OPAQUE_KIND, ORIGIN_LIMIT,
    POINT_LIMIT, POSITION_LIMIT, SHORTEST_LIMIT, THIN_LIMIT, TRIANGLE_LIMIT,
};
use vectors::{Ray, Triangle, Vec3};

// ---- one number, and three

// Whether x is not finite, or beyond ±b.
pub fn out_of(b: f32, x: f32) -> bool
    ensures { result ≡ outside b x }
{
    !((-b <= x) & (x <= b))
}

// Whether x is below 0, above b or not a number.
fn not_up_to(b: f32, x: f32) -> bool
    ensures { result ≡ not (up_to b x) }
{
    !((0.0 <= x) & (x <= b))
}

// Whether a component is not finite, or beyond ±b.
pub fn vector_out_of(b: f32, v: Vec3) -> bool
    ensures { result ≡ outside_v b v }
{
    out_of(b, v.x) | out_of(b, v.y) | out_of(b, v.z)
}

// ---- 1

pub fn bad_axes(axes: Axes) -> bool
    ensures { result ≡ bad_axes axes }
{
    let w = (axes.width < 1) | (AXIS_LIMIT < axes.width);
    let h = (axes.height < 1) | (AXIS_LIMIT < axes.height);
    let d = (axes.depth < 1) | (AXIS_LIMIT < axes.depth);
    w | h | d
}

// ---- 2

pub fn bad_grid(corners: Corners, axes: Axes) -> bool
    requires { AxesWithin axes }
    ensures { result ≡ bad_grid corners axes }
{
    let low = vector_out_of(POINT_LIMIT, corners.min);
    let high = vector_out_of(POINT_LIMIT, corners.max);
    let e = grid::inner::edges(corners, axes);
    let thin = !(EDGE_LIMIT <= e.x) | !(EDGE_LIMIT <= e.y) | !(EDGE_LIMIT <= e.z);
    (low | high) | thin
}

// ---- 3

// Whether len is anything but k for each of n, by quotient and remainder: no product can wrap.
pub fn wrong_share(k: usize, len: usize, n: usize) -> bool
    requires { 0 < k }
    ensures { result ≡ wrong_share k len n }
{
    !((len / k == n) & (len % k == 0))
}

// Whether the lists of a scene do not fit each other.
pub fn wrong_scene(points: &[f32], uses: &[u32], kinds: &[u8], numbers: &[f32]) -> bool
    ensures { result ≡ wrong_scene points.now uses.now kinds.now numbers.now }
{
    wrong_share(9, points.len(), uses.len()) | wrong_share(7, numbers.len(), kinds.len())
}

// Whether a list of hits is too short for t triangles; for solid walls none is asked for.
pub fn short_hits(solid: bool, distances: usize, places: usize, t: usize) -> bool
    ensures { result ≡ short_hits solid distances places t }
{
    if solid {
        return false;
    }
    (distances < t) | (places < t)
}

// ---- 4

pub fn too_many(triangles: usize, materials: usize) -> bool
    ensures { result ≡ too_many triangles materials }
{
    (TRIANGLE_LIMIT < triangles) | (MATERIAL_LIMIT < materials)
}

// ---- 5

pub fn bad_points(points: &[f32]) -> bool
    ensures { result ≡ bad_points points.now }
{
    any_out_of(points, POINT_LIMIT)
}

pub fn bad_triangle(t: Triangle) -> bool
    ensures { result ≡ bad_triangle t }
{
    vector_out_of(POINT_LIMIT, t.p0)
        | vector_out_of(POINT_LIMIT, t.p1)
        | vector_out_of(POINT_LIMIT, t.p2)
}

// ---- 6

// For the engine of solid walls, or for the other: they differ in the last kind that may stand in the list.
pub fn bad_materials_for(solid: bool, uses: &[u32], kinds: &[u8], numbers: &[f32]) -> bool
    ensures { result ≡ bad_materials_for solid uses.now kinds.now numbers.now }
{
    any_above(kinds, last_kind(solid)) | bad_numbers(numbers) | any_from(uses, kinds.len())
}

fn last_kind(solid: bool) -> u8
    ensures { result ≡ cond solid opaque_kind last_kind }
{
    if solid { OPAQUE_KIND } else { LAST_KIND }
}

fn bad_number(place: usize, x: f32) -> bool
    ensures { result ≡ bad_number place x }
{
    if place % 7 == 6 {
        return not_up_to(1.0, x);
    }
    out_of(COLOUR_LIMIT, x)
}

fn bad_numbers(numbers: &[f32]) -> bool
    ensures { result ≡ bad_numbers numbers.now }
{
    let mut i = 0;
    while i < numbers.len() {
        if bad_number(i, numbers[i]) {
            return true;
        }
        i += 1;
    }
    false
}

// ---- 7

// "components up to 4,096, computed squared length above 1e-12"
pub fn bad_direction(d: Vec3) -> bool
    ensures { result ≡ bad_direction d }
{
    vector_out_of(LIGHT_DIRECTION_LIMIT, d) | !(THIN_LIMIT < vectors::dot(d, d))
}

pub fn bad_colour(c: Vec3) -> bool
    ensures { result ≡ bad_colour c }
{
    vector_out_of(COLOUR_LIMIT, c)
}

pub fn bad_light(l: Light) -> bool
    ensures { result ≡ bad_light l }
{
    bad_direction(l.direction) | bad_colour(l.colour)
}

pub fn bad_ambient(a: Ambient) -> bool
    ensures { result ≡ bad_ambient a }
{
    bad_colour(a.c0) | bad_colour(a.c1) | bad_colour(a.c2) | bad_colour(a.c3)
}

pub fn bad_sky(sky: &[f32]) -> bool
    ensures { result ≡ bad_sky sky.now }
{
    any_out_of(sky, COLOUR_LIMIT)
}

// ---- 8

pub fn bad_ray(ray: Ray) -> bool
    ensures { result ≡ bad_ray ray }
{
    let ends = not_up_to(SHORTEST_LIMIT, ray.shortest);
    let origin = vector_out_of(ORIGIN_LIMIT, ray.origin);
    let direction = vector_out_of(DIRECTION_LIMIT, ray.direction);
    origin | direction | ends | (ray.longest != ray.longest)
}

// ---- 11

pub fn bad_position(p: Vec3) -> bool
    ensures { result ≡ bad_position p }
{
    vector_out_of(POSITION_LIMIT, p)
}

// ---- 13

// Of one light.
pub fn bad_light_number(x: f32) -> bool
    ensures { result ≡ outside light_limit x }
{
    out_of(LIGHT_LIMIT, x)
}

pub fn bad_mask(mask: &[u8]) -> bool
    ensures { result ≡ bad_mask mask.now }
{
    any_above(mask, 1)
}

pub fn bad_lights(light: &[f32]) -> bool
    ensures { result ≡ bad_lights light.now }
{
    any_out_of(light, LIGHT_LIMIT)
}

pub fn bad_coefficients(volume: &[f32]) -> bool
    ensures { result ≡ bad_coefficients volume.now }
{
    any_out_of(volume, COEFFICIENT_LIMIT)
}

// ---- 19

// How many lamps a list holds.
pub fn lamp_count(lamps: &[f32]) -> usize
    ensures { result ≡ lamp_count lamps.now }
{
    lamps.len() / 6
}

// Lamp j of a list.
pub fn lamp_at(lamps: &[f32], j: usize) -> Lamp
    requires { j < lamp_count lamps.now }
    ensures { result ≡ lamp_at lamps.now j }
{
    let k = j * 6;
    let position = vectors::inner::vec_at(lamps, k);
    let colour = vectors::inner::vec_at(lamps, k + 3);
    Lamp { position, colour }
}

fn bad_lamp(lamp: Lamp) -> bool
    ensures { result ≡ bad_lamp lamp }
{
    vector_out_of(POSITION_LIMIT, lamp.position) | bad_colour(lamp.colour)
}

// More than eight lamps, or a bad one.
pub fn bad_lamps(lamps: &[f32]) -> bool
    ensures { result ≡ bad_lamps lamps.now }
{
    let n = lamp_count(lamps);
    if LAMP_LIMIT < n {
        return true;
    }
    let mut j = 0;
    while j < n {
        if bad_lamp(lamp_at(lamps, j)) {
            return true;
        }
        j += 1;
    }
    false
}

// ---- scans: where one goes to the end of the list, several entries are tested at once

// Whether some number of a list is not finite, or beyond ±b.
pub fn any_out_of(l: &[f32], b: f32) -> bool
    ensures { result ≡ some (outside b) l.now }
{
    let mut any = false;
    let mut i = 0;
    while i < l.len() {
        any = any | out_of(b, l[i]);
        i += 1;
    }
    any
}

// Whether some entry of a list is above the most that it may be.
pub fn any_above(l: &[u8], most: u8) -> bool
    ensures { result ≡ some (ltb most) l.now }
{
    let mut any = false;
    let mut i = 0;
    while i < l.len() {
        any = any | (most < l[i]);
        i += 1;
    }
    any
}

// Whether some place of a list is n or past it.
fn any_from(l: &[u32], n: usize) -> bool
    ensures { result ≡ some (leb n) l.now }
{
    let mut i = 0;
    while i < l.len() {
        if n <= wide(l[i]) {
            return true;
        }
        i += 1;
    }
    false
}

fn wide(x: u32) -> usize
    ensures { result ≡ x }
{
    x as usize
}
