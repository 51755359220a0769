// Both scans by a tree's rows: each row's box is asked once, and where it is passed over the loop goes on behind all that lies inside it.
ghost use Rattle.std.specs.Prelude.{◌≡◌, [], ◌≤◌, length};
ghost use Rattle.names.specs.Scene.{Sound, tree_scene, HitsFit};
ghost use Rattle.scan.specs.Nearest.{nearest_of};
ghost use Rattle.scan.specs.Transmittance.{transmittance_of};
ghost use Rattle.tree.specs.Tree.{box_count};
ghost use Rattle.tree_walk.specs.FoldLaws.{fold_of};
ghost use Rattle.tree_walk.specs.Collect.{came, collect_step};
ghost use Rattle.tree_walk.specs.Kept.{collected_by, MetWithin};
ghost use Rattle.tree_rows.specs.Rows.{places_to, Rowed};

use scan::PlacedHit;
use vectors::Ray;

// ---- the nearest hit

// The nearest hit of the ray among the triangles whose own padded box is not passed over. Of a leaf mostly none may be met, so that the search goes first, which needs the turned points alone.
pub fn nearest(
    points: &[f32],
    uses: &[u32],
    kinds: &[u8],
    numbers: &[f32],
    boxes: &[f32],
    nodes: &[u32],
    order: &[u32],
    rows: &[f32],
    ray: Ray,
) -> Option<PlacedHit>
    requires sound { Sound (tree_scene points.now uses.now kinds.now numbers.now boxes.now nodes.now order.now) }
    requires rowed { Rowed points.now order.now (box_count nodes.now) rows.now }
    ensures { result ≡ nearest_of (tree_scene points.now uses.now kinds.now numbers.now boxes.now nodes.now order.now) ray }
{
    let n = nodes.len() / 3;
    let mut held = None;
    let mut k = 0;
    while k < n {
        let b = tree_rows::inner::bounds(rows, k);
        if boxes::inner::passed_over(ray.origin, ray.direction, b) {
            k = tree_rows::inner::after(rows, k);
        } else {
            let first = tree_rows::inner::first(rows, k);
            let end = first + tree_rows::inner::count(rows, k);
            let j = scan::inner::first_open(rows, first, end, ray);
            k += 1;
            if j < end {
                held = tree_walk::inner::span_nearest(
                    points,
                    uses,
                    kinds,
                    order,
                    rows,
                    ray,
                    j,
                    end - j,
                    held,
                );
            }
        }
    }
    held
}

// ---- how much light passes

// How much light passes along the ray: the hits by distance, then by place, and the product of their transmissions, as in the scan. The two scratch lists hold the hits on the way, in the rows' order
// first, then in their own; where every material is opaque they hold none, and may be empty. The loop ends at the first hit that stops light.
pub fn transmittance(
    points: &[f32],
    uses: &[u32],
    kinds: &[u8],
    numbers: &[f32],
    boxes: &[f32],
    nodes: &[u32],
    order: &[u32],
    rows: &[f32],
    ray: Ray,
    distances: &mut [f32],
    places: &mut [usize],
) -> f32
    requires sound { Sound (tree_scene points.now uses.now kinds.now numbers.now boxes.now nodes.now order.now) }
    requires rowed { Rowed points.now order.now (box_count nodes.now) rows.now }
    requires hits_fit { HitsFit (tree_scene points.now uses.now kinds.now numbers.now boxes.now nodes.now order.now) (length distances.old) (length places.old) }
    ensures { result ≡ transmittance_of (tree_scene points.now uses.now kinds.now numbers.now boxes.now nodes.now order.now) ray }
{
    let Some(m) = collect(
        points, uses, kinds, numbers, boxes, nodes, order, rows, ray, distances, places,
    ) else {
        return 0.0;
    };
    tree_walk::inner::passing(uses, numbers, &mut distances[..m], &mut places[..m])
}

// The hits of all rows, in their order: how many stand in the lists, or nothing where one stops light.
fn collect(
    points: &[f32],
    uses: &[u32],
    kinds: &[u8],
    numbers: &[f32],
    boxes: &[f32],
    nodes: &[u32],
    order: &[u32],
    rows: &[f32],
    ray: Ray,
    distances: &mut [f32],
    places: &mut [usize],
) -> Option<usize>
    requires sound { Sound (tree_scene points.now uses.now kinds.now numbers.now boxes.now nodes.now order.now) }
    requires rowed { Rowed points.now order.now (box_count nodes.now) rows.now }
    requires hits_fit { HitsFit (tree_scene points.now uses.now kinds.now numbers.now boxes.now nodes.now order.now) (length distances.old) (length places.old) }
    ensures { (collected_by result distances.new places.new ≡ fold_of (collect_step points.now uses.now kinds.now ray) (came []) (places_to order.now rows.now (box_count nodes.now)))
        × MetWithin result (length uses.now) (length distances.old) (length places.old) }
{
    let n = nodes.len() / 3;
    let mut m = 0;
    let mut k = 0;
    while k < n {
        let b = tree_rows::inner::bounds(rows, k);
        if boxes::inner::passed_over(ray.origin, ray.direction, b) {
            k = tree_rows::inner::after(rows, k);
        } else {
            let first = tree_rows::inner::first(rows, k);
            let end = first + tree_rows::inner::count(rows, k);
            let j = scan::inner::first_open(rows, first, end, ray);
            k += 1;
            if j < end {
                m = tree_walk::inner::span_collect(
                    points,
                    uses,
                    kinds,
                    order,
                    rows,
                    ray,
                    j,
                    end - j,
                    m,
                    distances,
                    places,
                )?;
            }
        }
    }
    Some(m)
}
