// Whether a tree is accepted: one pass over the boxes in their order, with marks of the boxes' depths and of the triangles seen, and one over the triangles. A
// triangle is marked once at most before the pass ends, so that the work is linear in boxes and triangles, whatever the lists hold.
ghost use Rattle.std.specs.Prelude.{◌≡◌, false, not, ◌||◌, eqb, ltb, ◌+◌, ◌*◌, ◌/◌, ◌≤◌, ◌<◌, length, get_or};
ghost use Rattle.names.specs.Numbers.{triangle_limit};
ghost use Rattle.lists.specs.Any.{any};
ghost use Rattle.tree.specs.Tree.{box_count, count_at, present_at};
ghost use Rattle.tree.specs.Test.{box_limit, mark_pair, mark_box, see_run, see_box, seen_to, bad_half, bad_pair, bad_place, bad_run, bad_box, bad_box_at, missed, accepted_by, TestFit};
ghost use Rattle.tree.specs.Trees.{not_accepted};

use boxes::Bounds;
use names::{DEPTH_LIMIT, TRIANGLE_LIMIT};

// Every leaf holds a triangle of its own, so that no accepted tree has more boxes (`few_boxes`).
const BOX_LIMIT: usize = TRIANGLE_LIMIT * 2 - 1;

// Whether the tree of three lists is accepted over the triangles of points, nine numbers each.
#[tactic(auto, using(crate::proofs::TestLaws::lists_out), unfolding(crate::specs::Test::accepted_by, crate::specs::Test::wrong_lists, crate::specs::Test::first_depths, crate::specs::Test::none_seen))]
pub fn accepted(points: &[f32], boxes: &[f32], nodes: &[u32], order: &[u32]) -> bool
    requires { length points.now / 9 ≤ triangle_limit }
    ensures { result ≡ accepted_by points.now boxes.now nodes.now order.now }
{
    let n = nodes.len() / 3;
    if BOX_LIMIT < n || wrong_lists(points.len() / 9, boxes.len(), nodes.len(), order.len(), n) {
        return false;
    }
    let mut depths = [0u8; BOX_LIMIT];
    let mut seen = [0u8; TRIANGLE_LIMIT];
    depths[0] = 1;
    !any_bad(points, boxes, nodes, order, &mut depths, &mut seen) && !any_missed(points, &seen)
}

// Whether a scene comes with a tree and that is not accepted.
#[tactic(auto, unfolding(crate::specs::Trees::not_accepted))]
pub fn not_accepted(
    boxed: bool,
    points: &[f32],
    boxes: &[f32],
    nodes: &[u32],
    order: &[u32],
) -> bool
    requires { length points.now / 9 ≤ triangle_limit }
    ensures { result ≡ not_accepted boxed points.now boxes.now nodes.now order.now }
{
    boxed && !accepted(points, boxes, nodes, order)
}

// Whether the lists do not fit n boxes, or the order is longer than the triangles are many.
fn wrong_lists(triangles: usize, boxes: usize, nodes: usize, order: usize, n: usize) -> bool
    requires { n ≤ box_limit }
    ensures { result ≡ not (eqb nodes (n * 3)) || not (eqb boxes (n * 6)) || ltb triangles order }
{
    (nodes != n * 3) | (boxes != n * 6) | (triangles < order)
}

// Whether some box is bad; where none is, the triangles of all leaves are marked.
#[tactic(auto, using(crate::proofs::TestLaws::any_steps), unfolding(crate::specs::Test::depths_to, crate::specs::Test::seen_to))]
fn any_bad(
    points: &[f32],
    boxes: &[f32],
    nodes: &[u32],
    order: &[u32],
    depths: &mut [u8],
    seen: &mut [u8],
) -> bool
    requires { TestFit points.now boxes.now nodes.now depths.old seen.old }
    ensures { (result ≡ any (bad_box_at points.now boxes.now nodes.now order.now depths.old seen.old) (box_count nodes.now) 0) × (result ≡ false → seen.new ≡ seen_to nodes.now order.now seen.old (box_count nodes.now)) }
{
    for i in 0..nodes.len() / 3 {
        if bad_box(points, boxes, nodes, order, i, depths, seen) {
            return true;
        }
    }
    false
}

// Whether box i is bad; where it is not, its halves or its triangles are marked.
#[tactic(auto, unfolding(crate::specs::Test::bad_box, crate::specs::Tree::count_at))]
fn bad_box(
    points: &[f32],
    boxes: &[f32],
    nodes: &[u32],
    order: &[u32],
    i: usize,
    depths: &mut [u8],
    seen: &mut [u8],
) -> bool
    requires { TestFit points.now boxes.now nodes.now depths.old seen.old × (i < box_count nodes.now) }
    ensures { (result ≡ bad_box points.now boxes.now nodes.now order.now i depths.old seen.old) × (result ≡ false → depths.new ≡ mark_box nodes.now i depths.old) × (result ≡ false → seen.new ≡ see_box nodes.now order.now i seen.old) }
{
    if depths[i] == 0 {
        true
    } else if nodes[i * 3] == 0 {
        bad_pair(boxes, nodes, i, depths)
    } else {
        bad_run(points, boxes, nodes, order, i, seen)
    }
}

// Whether a half of box i is bad, or it lies too deep to have any; where not, the halves are marked.
#[tactic(auto, using(crate::proofs::TestLaws::half_out), unfolding(crate::specs::Test::bad_pair, crate::specs::Test::mark_pair, crate::specs::Tree::left_at, crate::specs::Tree::right_at))]
fn bad_pair(boxes: &[f32], nodes: &[u32], i: usize, depths: &mut [u8]) -> bool
    requires { (length nodes.now ≡ box_count nodes.now * 3) × (length boxes.now ≡ box_count nodes.now * 6) × (box_count nodes.now ≤ length depths.old) × (i < box_count nodes.now) }
    ensures { (result ≡ bad_pair boxes.now nodes.now i depths.old) × (result ≡ false → depths.new ≡ mark_pair nodes.now i depths.old) }
{
    let n = nodes.len() / 3;
    let left = nodes[i * 3 + 1] as usize;
    let right = nodes[i * 3 + 2] as usize;
    let d = depths[i];
    if bad_half(boxes, n, depths, i, left)
        || bad_half(boxes, n, depths, i, right)
        || left == right
        || DEPTH_LIMIT < d
    {
        return true;
    }
    depths[left] = d + 1;
    depths[right] = d + 1;
    false
}

// Whether a half of box i does not follow it, is past the list, has a parent already or does not lie inside.
#[tactic(auto, unfolding(crate::specs::Test::bad_half))]
fn bad_half(boxes: &[f32], n: usize, depths: &[u8], i: usize, half: usize) -> bool
    requires { (length boxes.now ≡ n * 6) × (n ≤ length depths.now) × (i < n) }
    ensures { result ≡ bad_half boxes.now n depths.now i half }
{
    half <= i
        || n <= half
        || depths[half] != 0
        || !boxes::inner::is_inside(
            boxes::inner::bounds_at(boxes, half),
            boxes::inner::bounds_at(boxes, i),
        )
}

// Whether the run of leaf i goes past the order or a triangle in it is bad; where not, its triangles are marked.
#[tactic(auto, using(crate::proofs::TestLaws::run_steps), unfolding(crate::specs::Test::see_run, crate::specs::Test::bad_run, crate::specs::Tree::count_at, crate::specs::Tree::left_at, crate::specs::Tree::place_at))]
fn bad_run(
    points: &[f32],
    boxes: &[f32],
    nodes: &[u32],
    order: &[u32],
    i: usize,
    seen: &mut [u8],
) -> bool
    requires { (length nodes.now ≡ box_count nodes.now * 3) × (length boxes.now ≡ box_count nodes.now * 6) × (length points.now / 9 ≤ length seen.old) × (i < box_count nodes.now) }
    ensures { (result ≡ bad_run points.now boxes.now nodes.now order.now i seen.old) × (result ≡ false → seen.new ≡ see_run nodes.now order.now i (count_at nodes.now i) seen.old) }
{
    let count = nodes[i * 3] as usize;
    let first = nodes[i * 3 + 1] as usize;
    if order.len() < first + count {
        return true;
    }
    let b = boxes::inner::bounds_at(boxes, i);
    for place in &order[first..first + count] {
        let p = *place as usize;
        if bad_place(points, b, seen, p) {
            return true;
        }
        seen[p] = 1;
    }
    false
}

// Whether triangle p may not stand in a leaf of this box: it is not present, it was seen, or it does not lie inside.
#[tactic(auto, using(crate::proofs::TestLaws::present_within), unfolding(crate::specs::Test::bad_place))]
fn bad_place(points: &[f32], b: Bounds, seen: &[u8], p: usize) -> bool
    requires { length points.now / 9 ≤ length seen.now }
    ensures { result ≡ bad_place points.now b seen.now p }
{
    !present(points, p)
        || seen[p] != 0
        || !boxes::inner::is_inside(boxes::inner::padded(triangle::inner::at(points, p)), b)
}

// Whether some present triangle was not seen.
#[tactic(auto, using(crate::proofs::TestLaws::any_steps), unfolding(crate::specs::Test::missed))]
fn any_missed(points: &[f32], seen: &[u8]) -> bool
    requires { length points.now / 9 ≤ length seen.now }
    ensures { result ≡ any (missed points.now seen.now) (length points.now / 9) 0 }
{
    for p in 0..points.len() / 9 {
        if present(points, p) && seen[p] == 0 {
            return true;
        }
    }
    false
}

// Whether the scene has a triangle at place p that is not absent.
#[tactic(auto, unfolding(crate::specs::Tree::present_at))]
pub fn present(points: &[f32], p: usize) -> bool
    ensures { result ≡ present_at points.now p }
{
    p < points.len() / 9 && !triangle::inner::absent(triangle::inner::at(points, p))
}

// A whole number of a list.
pub fn word_at(l: &[u32], k: usize) -> usize
    requires { k < length l.now }
    ensures { (result ≡ get_or l.now k 0) × (result < 4294967296) }
{
    l[k] as usize
}
