// The two scans of a scene that comes with a box tree or not, over lists that fit each other.
ghost use Rattle.std.specs.Prelude.{◌≡◌, length};
ghost use Rattle.names.specs.Scene.{Sound, scene_for, HitsFit};
ghost use Rattle.scan.specs.Nearest.{nearest_of};
ghost use Rattle.scan.specs.Transmittance.{transmittance_of};
ghost use Rattle.tracing.specs.Through.{Through};

use scan::PlacedHit;
use vectors::Ray;

// The nearest hit of the ray.
pub fn nearest(
    points: &[f32],
    uses: &[u32],
    kinds: &[u8],
    numbers: &[f32],
    boxed: bool,
    boxes: &[f32],
    nodes: &[u32],
    order: &[u32],
    rows: &[f32],
    ray: Ray,
) -> Option<PlacedHit>
    requires sound { Sound (scene_for boxed points.now uses.now kinds.now numbers.now boxes.now nodes.now order.now) }
    requires through { Through (scene_for boxed points.now uses.now kinds.now numbers.now boxes.now nodes.now order.now) rows.now }
    ensures { result ≡ nearest_of (scene_for boxed points.now uses.now kinds.now numbers.now boxes.now nodes.now order.now) ray }
{
    if boxed {
        return row_walk::inner::nearest(
            points, uses, kinds, numbers, boxes, nodes, order, rows, ray,
        );
    }
    scan::inner::nearest(points, uses, kinds, numbers, ray)
}

// How much light passes along the ray. The two scratch lists hold the hits on the way; where every material is opaque they hold none, and may be empty.
pub fn transmittance(
    points: &[f32],
    uses: &[u32],
    kinds: &[u8],
    numbers: &[f32],
    boxed: bool,
    boxes: &[f32],
    nodes: &[u32],
    order: &[u32],
    rows: &[f32],
    ray: Ray,
    distances: &mut [f32],
    places: &mut [usize],
) -> f32
    requires sound { Sound (scene_for boxed points.now uses.now kinds.now numbers.now boxes.now nodes.now order.now) }
    requires hits_fit { HitsFit (scene_for boxed points.now uses.now kinds.now numbers.now boxes.now nodes.now order.now) (length distances.old) (length places.old) }
    requires through { Through (scene_for boxed points.now uses.now kinds.now numbers.now boxes.now nodes.now order.now) rows.now }
    ensures { result ≡ transmittance_of (scene_for boxed points.now uses.now kinds.now numbers.now boxes.now nodes.now order.now) ray }
{
    if boxed {
        return row_walk::inner::transmittance(
            points, uses, kinds, numbers, boxes, nodes, order, rows, ray, distances, places,
        );
    }
    scan::inner::transmittance(points, uses, kinds, numbers, ray, distances, places)
}
