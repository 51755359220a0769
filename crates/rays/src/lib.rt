// The public calls over rays: the test of one triangle, the nearest hit, and how much light passes, with hit scratch, between solid walls, or through a box tree. Each tests its input first; a refusal answers
// its number and writes nothing.
#![tactic(auto)]

ghost use Rattle.std.specs.Prelude.{◌≡◌, false, length};
ghost use Rattle.names.specs.Refusals.{first_of};
ghost use Rattle.names.specs.Scene.{scene_of, scene_for};
ghost use Rattle.limits.specs.Limits.{wrong_scene};
ghost use Rattle.rays.specs.Rays.{meet_refusal, scan_rows, met_case, found_case, MeetAnswered, NearestAnswered, TransmittanceAnswered, SolidTransmittanceAnswered, TreeNearestAnswered, TreeTransmittanceAnswered};

use scan::PlacedHit;
use tree_walk::TURNED_NUMBERS;
use triangle::Hit;
use vectors::{Ray, Triangle};

// What the test of one triangle answers: a refusal's number, a miss, or a hit's distance, u and v, and whether the front was met.
#[derive(Clone, Copy)]
pub enum Met {
    Refused(u32),
    Miss,
    Hit(f32, f32, f32, bool),
}

// What the search for the nearest hit answers: a refusal's number, nothing, or the hit's place, distance, u and v, and whether the front was met.
#[derive(Clone, Copy)]
pub enum Found {
    Refused(u32),
    Nothing,
    Hit(usize, f32, f32, f32, bool),
}

// How much light passes along a ray, from 1 down to 0; +0 on a refusal.
#[repr(C)]
#[derive(Clone, Copy)]
pub struct Transmitted {
    pub refusal: u32,
    pub transmittance: f32,
}

// The test of one triangle, from both its sides. Refusals 5 and 8.
pub fn meet(ray: Ray, triangle: Triangle) -> Met
    ensures { MeetAnswered ray triangle result }
{
    let refusal = meet_refusal(ray, triangle);
    if refusal == 0 {
        return as_met(triangle::inner::test(ray, triangle));
    }
    Met::Refused(refusal)
}

// The nearest hit among all triangles, a panel's back left out; among equal distances the one of the highest place. Refusals 3, 4, 5, 6 and 8.
pub fn nearest(points: &[f32], uses: &[u32], kinds: &[u8], numbers: &[f32], ray: Ray) -> Found
    ensures { NearestAnswered (scene_of points.now uses.now kinds.now numbers.now) ray result }
{
    let wrong = limits::inner::wrong_scene(points, uses, kinds, numbers);
    let none = [0.0f32; 0];
    let no_node = [0u32; 0];
    let refusal = scene_refusal(
        false, wrong, points, uses, kinds, numbers, false, &none, &no_node, &no_node, ray,
    );
    if refusal == 0 {
        return as_found(scan::inner::nearest(points, uses, kinds, numbers, ray));
    }
    Found::Refused(refusal)
}

// How much light passes along the ray. The two scratch lists, each at least as long as there are triangles, hold the hits on the way; what stands
// in them afterwards is left open. Refusals 3, 4, 5, 6 and 8.
pub fn transmittance(
    points: &[f32],
    uses: &[u32],
    kinds: &[u8],
    numbers: &[f32],
    ray: Ray,
    distances: &mut [f32],
    places: &mut [usize],
) -> Transmitted
    ensures { TransmittanceAnswered (scene_of points.now uses.now kinds.now numbers.now) ray distances.old places.old result distances.new places.new }
{
    let n = uses.len();
    let scene = limits::inner::wrong_scene(points, uses, kinds, numbers);
    let wrong = scene | limits::inner::short_hits(false, distances.len(), places.len(), n);
    let none = [0.0f32; 0];
    let no_node = [0u32; 0];
    let refusal = scene_refusal(
        false, wrong, points, uses, kinds, numbers, false, &none, &no_node, &no_node, ray,
    );
    if refusal == 0 {
        let passed = scan::inner::transmittance(
            points, uses, kinds, numbers, ray, distances, places,
        );
        return Transmitted {
            refusal: 0,
            transmittance: passed,
        };
    }
    Transmitted {
        refusal,
        transmittance: 0.0,
    }
}

// How much light passes along the ray where every material is opaque: all or nothing. The ray ends at its first hit, and no hit scratch is lent. Refusals 3,
// 4, 5, 6, also for a kind other than opaque, used or not, and 8.
pub fn solid_transmittance(
    points: &[f32],
    uses: &[u32],
    kinds: &[u8],
    numbers: &[f32],
    ray: Ray,
) -> Transmitted
    ensures { SolidTransmittanceAnswered (scene_of points.now uses.now kinds.now numbers.now) ray result }
{
    let wrong = limits::inner::wrong_scene(points, uses, kinds, numbers);
    let none = [0.0f32; 0];
    let no_node = [0u32; 0];
    let refusal = scene_refusal(
        true, wrong, points, uses, kinds, numbers, false, &none, &no_node, &no_node, ray,
    );
    if refusal == 0 {
        let mut distances = [0.0f32; 0];
        let mut places = [0usize; 0];
        let passed = scan::inner::transmittance(
            points,
            uses,
            kinds,
            numbers,
            ray,
            &mut distances,
            &mut places,
        );
        return Transmitted {
            refusal: 0,
            transmittance: passed,
        };
    }
    Transmitted {
        refusal,
        transmittance: 0.0,
    }
}

// The nearest hit through a box tree of the scene: only triangles whose own padded box is not passed over are candidates. Refusals 3, 4, 5, 6, 16 where the tree
// is not accepted, and 8.
pub fn tree_nearest(
    points: &[f32],
    uses: &[u32],
    kinds: &[u8],
    numbers: &[f32],
    boxes: &[f32],
    nodes: &[u32],
    order: &[u32],
    ray: Ray,
) -> Found
    ensures { TreeNearestAnswered points.now uses.now kinds.now numbers.now boxes.now nodes.now order.now ray result }
{
    let wrong = limits::inner::wrong_scene(points, uses, kinds, numbers);
    let refusal = scene_refusal(
        false, wrong, points, uses, kinds, numbers, true, boxes, nodes, order, ray,
    );
    if refusal == 0 {
        let mut turned = [0.0f32; TURNED_NUMBERS];
        tree_walk::inner::turn(points, order, &mut turned);
        return as_found(tree_walk::inner::nearest(
            points, uses, kinds, numbers, boxes, nodes, order, &turned, ray,
        ));
    }
    Found::Refused(refusal)
}

// How much light passes along the ray, through a box tree of the scene, with hit scratch. Refusals 3, 4, 5, 6, 16 where the tree is not accepted, and 8.
pub fn tree_transmittance(
    points: &[f32],
    uses: &[u32],
    kinds: &[u8],
    numbers: &[f32],
    boxes: &[f32],
    nodes: &[u32],
    order: &[u32],
    ray: Ray,
    distances: &mut [f32],
    places: &mut [usize],
) -> Transmitted
    ensures { TreeTransmittanceAnswered points.now uses.now kinds.now numbers.now boxes.now nodes.now order.now ray distances.old places.old result distances.new places.new }
{
    let n = uses.len();
    let lists = limits::inner::wrong_scene(points, uses, kinds, numbers);
    let wrong = lists | limits::inner::short_hits(false, distances.len(), places.len(), n);
    let refusal = scene_refusal(
        false, wrong, points, uses, kinds, numbers, true, boxes, nodes, order, ray,
    );
    if refusal == 0 {
        let mut turned = [0.0f32; TURNED_NUMBERS];
        tree_walk::inner::turn(points, order, &mut turned);
        let passed = tree_walk::inner::transmittance(
            points, uses, kinds, numbers, boxes, nodes, order, &turned, ray, distances, places,
        );
        return Transmitted {
            refusal: 0,
            transmittance: passed,
        };
    }
    Transmitted {
        refusal,
        transmittance: 0.0,
    }
}

// 5, 8
fn meet_refusal(ray: Ray, triangle: Triangle) -> u32
    ensures { result ≡ meet_refusal ray triangle }
{
    if limits::inner::bad_triangle(triangle) {
        return 5;
    }
    if limits::inner::bad_ray(ray) {
        return 8;
    }
    0
}

// 3, 4, 5, 6, 16, 8, where `wrong` says that a length is; with `solid` 6 also for another kind.
fn scene_refusal(
    solid: bool,
    wrong: bool,
    points: &[f32],
    uses: &[u32],
    kinds: &[u8],
    numbers: &[f32],
    boxed: bool,
    boxes: &[f32],
    nodes: &[u32],
    order: &[u32],
    ray: Ray,
) -> u32
    requires { wrong ≡ false → wrong_scene points.now uses.now kinds.now numbers.now ≡ false }
    ensures { result ≡ first_of (scan_rows solid wrong (scene_for boxed points.now uses.now kinds.now numbers.now boxes.now nodes.now order.now) ray) }
{
    if wrong {
        return 3;
    }
    if limits::inner::too_many(uses.len(), kinds.len()) {
        return 4;
    }
    if limits::inner::bad_points(points) {
        return 5;
    }
    if limits::inner::bad_materials_for(solid, uses, kinds, numbers) {
        return 6;
    }
    if tree::inner::not_accepted(boxed, points, boxes, nodes, order) {
        return 16;
    }
    if limits::inner::bad_ray(ray) {
        return 8;
    }
    0
}

#[tactic(auto, unfolding(crate::specs::Rays::met_case))]
fn as_met(met: Option<Hit>) -> Met
    ensures { result ≡ met_case met }
{
    match met {
        None => Met::Miss,
        Some(h) => Met::Hit(h.t, h.u, h.v, h.front),
    }
}

#[tactic(auto, unfolding(crate::specs::Rays::found_case))]
fn as_found(nearest: Option<PlacedHit>) -> Found
    ensures { result ≡ found_case nearest }
{
    match nearest {
        None => Found::Nothing,
        Some(PlacedHit { place, hit }) => Found::Hit(place, hit.t, hit.u, hit.v, hit.front),
    }
}
