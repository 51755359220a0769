// The nearest hit and the transmittance through a box tree: a box that is passed over is left out whole. Each function takes the lists of a scene and of a tree, which fit each other, and the scene's
// points in the tree's order, by which a leaf's triangles are looked over several at once.
ghost use Rattle.std.specs.Prelude.{◌≡◌, false, ℕ, ◌+◌, ◌-◌, ◌*◌, ◌≤◌, ◌<◌, length, get_or};
ghost use Rattle.names.specs.Bits.{one32};
ghost use Rattle.names.specs.Scene.{Sound, tree_scene, HitsFit};
ghost use Rattle.hits.specs.Hits.{paired, places_of};
ghost use Rattle.hits.specs.Merge.{sort_of, Numbers};
ghost use Rattle.scan.specs.OpaqueLaws.{clear_pass_of};
ghost use Rattle.panels.specs.Panels.{own_passed};
ghost use Rattle.tree.specs.Tree.{box_count, count_at, inner_at, AcceptedTree};
ghost use Rattle.tree_walk.specs.Boxed.{boxed_at, nearest_step};
ghost use Rattle.scan.specs.Nearest.{nearest_of};
ghost use Rattle.scan.specs.Transmittance.{transmittance_of};
ghost use Rattle.tree_walk.specs.Turned.{Turned, TurnedTo};
ghost use Rattle.tree_walk.specs.Walk.{node_visit, TreeFits};
ghost use Rattle.tree_walk.specs.UnderLaws.{places_under};
ghost use Rattle.tree_walk.specs.FoldLaws.{fold_of};
ghost use Rattle.tree_walk.specs.Spans.{span_places, SpanFits, SpanFirst};
ghost use Rattle.tree_walk.specs.Collect.{collect_step};
ghost use Rattle.tree_walk.specs.Kept.{collected_by, MetWithin, RoomFor};

use names::DEPTH_LIMIT;
use scan::PlacedHit;
use triangle::Hit;
use vectors::Ray;

// ---- the points in the tree's order

// Writes the points of the triangles that the order names, nine numbers a place.
pub fn turn(points: &[f32], order: &[u32], turned: &mut [f32])
    requires { length order.now * 9 ≤ length turned.old }
    ensures { Turned points.now order.now turned.new }
{
    for k in 0..order.len() {
        turn_one(points, order, k, turned);
    }
}

// Writes those of the triangle that the order names at place k, if the scene has it.
fn turn_one(points: &[f32], order: &[u32], k: usize, turned: &mut [f32])
    requires { (k < length order.now) × (length order.now * 9 ≤ length turned.old) }
    ensures { TurnedTo points.now order.now turned.old (k * 9) → TurnedTo points.now order.now turned.new (k * 9 + 9) }
{
    let p = tree::inner::word_at(order, k);
    if p < points.len() / 9 {
        let from = p * 9;
        let at = k * 9;
        turned[at..at + 9].copy_from_slice(&points[from..from + 9]);
    }
}

// ---- the nearest hit

// The nearest hit of the ray among the triangles whose own padded box is not passed over.
pub fn nearest(
    points: &[f32],
    uses: &[u32],
    kinds: &[u8],
    numbers: &[f32],
    boxes: &[f32],
    nodes: &[u32],
    order: &[u32],
    turned: &[f32],
    ray: Ray,
) -> Option<PlacedHit>
    requires sound { Sound (tree_scene points.now uses.now kinds.now numbers.now boxes.now nodes.now order.now) }
    requires accepted_tree { AcceptedTree points.now boxes.now nodes.now order.now }
    requires turned { Turned points.now order.now turned.now }
    ensures { result ≡ nearest_of (tree_scene points.now uses.now kinds.now numbers.now boxes.now nodes.now order.now) ray }
{
    if nodes.len() / 3 == 0 {
        return None;
    }
    node_visit(
        points,
        uses,
        kinds,
        boxes,
        nodes,
        order,
        turned,
        ray,
        0,
        DEPTH_LIMIT + 1,
        None,
    )
}

// With the hits under box i, of so many levels: those of its halves, the left one first, or of a leaf's run.
fn node_visit(
    points: &[f32],
    uses: &[u32],
    kinds: &[u8],
    boxes: &[f32],
    nodes: &[u32],
    order: &[u32],
    turned: &[f32],
    ray: Ray,
    i: usize,
    levels: u8,
    best: Option<PlacedHit>,
) -> Option<PlacedHit>
    requires tree_fits { TreeFits points.now uses.now kinds.now boxes.now nodes.now order.now turned.now }
    requires i_bound { i < box_count nodes.now }
    ensures { result ≡ node_visit (nearest_step points.now uses.now kinds.now ray) ray boxes.now nodes.now order.now levels i best }
{
    if levels == 0 {
        return best;
    }
    let b = boxes::inner::bounds_at(boxes, i);
    if boxes::inner::passed_over(ray.origin, ray.direction, b) {
        return best;
    }
    let count = tree::inner::word_at(nodes, i * 3);
    let first = tree::inner::word_at(nodes, i * 3 + 1);
    if count > 0 {
        return span_nearest(points, uses, kinds, order, turned, ray, first, count, best);
    }
    let right = tree::inner::word_at(nodes, i * 3 + 2);
    let held = node_visit(
        points,
        uses,
        kinds,
        boxes,
        nodes,
        order,
        turned,
        ray,
        first,
        levels - 1,
        best,
    );
    node_visit(
        points,
        uses,
        kinds,
        boxes,
        nodes,
        order,
        turned,
        ray,
        right,
        levels - 1,
        held,
    )
}

// With the hits of a span of the order.
pub fn span_nearest(
    points: &[f32],
    uses: &[u32],
    kinds: &[u8],
    order: &[u32],
    turned: &[f32],
    ray: Ray,
    first: usize,
    count: usize,
    best: Option<PlacedHit>,
) -> Option<PlacedHit>
    requires { SpanFits points.now uses.now kinds.now order.now turned.now first count }
    ensures { result ≡ fold_of (nearest_step points.now uses.now kinds.now ray) best (span_places order.now first count) }
{
    let end = first + count;
    let mut held = best;
    let mut k = first;
    while let Some((j, met)) = span_hit(points, uses, kinds, order, turned, ray, k, end) {
        held = scan::inner::nearer(held, met);
        k = j + 1;
    }
    held
}

// ---- how much light passes

// How much light passes along the ray: the hits by distance, then by place, and the product of their transmissions, as in the scan. The two scratch lists hold the hits on the way, in the tree's order
// first, then in their own; where every material is opaque they hold none, and may be empty. The walk ends at the first hit that stops light.
pub fn transmittance(
    points: &[f32],
    uses: &[u32],
    kinds: &[u8],
    numbers: &[f32],
    boxes: &[f32],
    nodes: &[u32],
    order: &[u32],
    turned: &[f32],
    ray: Ray,
    distances: &mut [f32],
    places: &mut [usize],
) -> f32
    requires sound { Sound (tree_scene points.now uses.now kinds.now numbers.now boxes.now nodes.now order.now) }
    requires accepted_tree { AcceptedTree points.now boxes.now nodes.now order.now }
    requires turned { Turned points.now order.now turned.now }
    requires hits_fit { HitsFit (tree_scene points.now uses.now kinds.now numbers.now boxes.now nodes.now order.now) (length distances.old) (length places.old) }
    ensures { result ≡ transmittance_of (tree_scene points.now uses.now kinds.now numbers.now boxes.now nodes.now order.now) ray }
{
    if nodes.len() / 3 == 0 {
        return 1.0;
    }
    let Some(m) = node_collect(
        points,
        uses,
        kinds,
        boxes,
        nodes,
        order,
        turned,
        ray,
        0,
        DEPTH_LIMIT + 1,
        0,
        distances,
        places,
    ) else {
        return 0.0;
    };
    passing(uses, numbers, &mut distances[..m], &mut places[..m])
}

// What is left of the light after these hits, none of which stops it.
pub fn passing(uses: &[u32], numbers: &[f32], distances: &mut [f32], places: &mut [usize]) -> f32
    requires distances_len { (length distances.old ≡ length places.old) × Numbers (paired distances.old places.old) }
    requires by_index { (i : ℕ) → i < length uses.now → get_or uses.now i 0 * 7 + 6 < length numbers.now }
    requires by_index_2 { (j : ℕ) → j < length (places_of (sort_of (paired distances.old places.old))) → get_or (places_of (sort_of (paired distances.old places.old))) j 0 < length uses.now }
    ensures { result ≡ clear_pass_of uses.now numbers.now one32 (places_of (sort_of (paired distances.old places.old))) }
{
    hits::inner::in_order(distances, places);
    scan::inner::product(uses, numbers, places)
}

// The hits under box i, of so many levels, after the m that stand in the lists: how many then stand there, or nothing where one stops light, which ends the walk.
fn node_collect(
    points: &[f32],
    uses: &[u32],
    kinds: &[u8],
    boxes: &[f32],
    nodes: &[u32],
    order: &[u32],
    turned: &[f32],
    ray: Ray,
    i: usize,
    levels: u8,
    m: usize,
    distances: &mut [f32],
    places: &mut [usize],
) -> Option<usize>
    requires tree_fits { TreeFits points.now uses.now kinds.now boxes.now nodes.now order.now turned.now }
    requires i_bound { i < box_count nodes.now }
    requires m_in_bounds { (m ≤ length distances.old) × (m ≤ length places.old) }
    requires room_for { RoomFor kinds.now (m + length (places_under nodes.now order.now levels i)) (length distances.old) (length places.old) }
    ensures { (collected_by result distances.new places.new ≡ node_visit (collect_step points.now uses.now kinds.now ray) ray boxes.now nodes.now order.now levels i (collected_by (Some m) distances.old places.old))
        × MetWithin result (m + length (places_under nodes.now order.now levels i)) (length distances.old) (length places.old) }
{
    if levels == 0 {
        return Some(m);
    }
    let b = boxes::inner::bounds_at(boxes, i);
    if boxes::inner::passed_over(ray.origin, ray.direction, b) {
        return Some(m);
    }
    let count = tree::inner::word_at(nodes, i * 3);
    let first = tree::inner::word_at(nodes, i * 3 + 1);
    if count > 0 {
        return span_collect(
            points, uses, kinds, order, turned, ray, first, count, m, distances, places,
        );
    }
    let right = tree::inner::word_at(nodes, i * 3 + 2);
    let k = node_collect(
        points,
        uses,
        kinds,
        boxes,
        nodes,
        order,
        turned,
        ray,
        first,
        levels - 1,
        m,
        distances,
        places,
    )?;
    node_collect(
        points,
        uses,
        kinds,
        boxes,
        nodes,
        order,
        turned,
        ray,
        right,
        levels - 1,
        k,
        distances,
        places,
    )
}

// The hits of a span of the order.
pub fn span_collect(
    points: &[f32],
    uses: &[u32],
    kinds: &[u8],
    order: &[u32],
    turned: &[f32],
    ray: Ray,
    first: usize,
    count: usize,
    held: usize,
    distances: &mut [f32],
    places: &mut [usize],
) -> Option<usize>
    requires span_fits { SpanFits points.now uses.now kinds.now order.now turned.now first count }
    requires held_in_bounds { (held ≤ length distances.old) × (held ≤ length places.old) }
    requires room_for { RoomFor kinds.now (held + count) (length distances.old) (length places.old) }
    ensures { (collected_by result distances.new places.new ≡ fold_of (collect_step points.now uses.now kinds.now ray) (collected_by (Some held) distances.old places.old) (span_places order.now first count))
        × MetWithin result (held + count) (length distances.old) (length places.old) }
{
    let end = first + count;
    let mut m = held;
    let mut k = first;
    while let Some((j, met)) = span_hit(points, uses, kinds, order, turned, ray, k, end) {
        if panels::inner::stops_light(panels::inner::kind_at(uses, kinds, met.place)) {
            return None;
        }
        distances[m] = met.hit.t;
        places[m] = met.place;
        m += 1;
        k = j + 1;
    }
    Some(m)
}

// ---- the search that both go by

// The first hit in the order from place k up to place end, and where in the order its triangle stands. Triangles that are surely missed are passed over, by the search of the list's scan over
// the points in the tree's order; of one that may be met the scene's own lists decide.
fn span_hit(
    points: &[f32],
    uses: &[u32],
    kinds: &[u8],
    order: &[u32],
    turned: &[f32],
    ray: Ray,
    from: usize,
    end: usize,
) -> Option<(usize, PlacedHit)>
    requires { (from ≤ end) × SpanFits points.now uses.now kinds.now order.now turned.now from (end - from) }
    ensures { SpanFirst points.now uses.now kinds.now order.now ray from end result }
{
    let mut k = from;
    while k < end {
        let j = scan::inner::first_open(turned, k, end, ray);
        if j == end {
            return None;
        }
        let place = tree::inner::word_at(order, j);
        if let Some(hit) = boxed_meet(points, uses, kinds, ray, place) {
            return Some((j, PlacedHit { place, hit }));
        }
        k = j + 1;
    }
    None
}

// ---- one triangle

// What is met of the triangle at place i, unless its own padded box is passed over. The box is asked only where the triangle is hit, which is rare.
#[tactic(auto, unfolding(panels::specs::Panels::met_by))]
fn boxed_meet(points: &[f32], uses: &[u32], kinds: &[u8], ray: Ray, i: usize) -> Option<Hit>
    requires { (i * 9 + 8 < length points.now) × (i < length uses.now) × (get_or uses.now i 0 < length kinds.now) }
    ensures { result ≡ boxed_at points.now uses.now kinds.now ray i }
{
    let hit = panels::inner::meet_at(points, uses, kinds, i, ray)?;
    if own_passed(points, ray, i) {
        None
    } else {
        Some(hit)
    }
}

// Whether the own padded box of the triangle at place i is passed over.
#[tactic(auto, unfolding(panels::specs::Panels::own_passed))]
fn own_passed(points: &[f32], ray: Ray, i: usize) -> bool
    requires { i * 9 + 8 < length points.now }
    ensures { result ≡ own_passed points.now ray i }
{
    boxes::inner::passed_over(
        ray.origin,
        ray.direction,
        boxes::inner::padded(triangle::inner::at(points, i)),
    )
}
