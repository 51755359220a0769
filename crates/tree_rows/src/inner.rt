// A tree's rows, written once a call, and what a row holds.
ghost use Rattle.std.specs.Prelude.{◌≡◌, false, ◌+◌, ◌*◌, ◌≤◌, ◌<◌, length, get_or};
ghost use Rattle.std.specs.Float.{nan};
ghost use Rattle.std.specs.Float.Ieee.{is_nan};
ghost use Rattle.names.specs.Bits.{lit};
ghost use Rattle.names.specs.Numbers.{triangle_limit};
ghost use Rattle.boxes.specs.Boxes.{bounds_at};
ghost use Rattle.tree.specs.Tree.{box_count, AcceptedTree};
ghost use Rattle.tree_rows.specs.Rows.{row_start, pattern_at, row_bounds, row_after, row_first, row_count, Rowed};
ghost use Rattle.tree_rows.specs.Layout.{whole_limit, with_vec, with_row, boxes_under, with_rows, Lays};

use boxes::Bounds;
use names::{DEPTH_LIMIT, TRIANGLE_LIMIT};
use vectors::Vec3;

// Where the rows begin: behind the points of as many triangles as a scene may have.
const ROWS_FROM: usize = TRIANGLE_LIMIT * 9;

// ---- the rows written

// Writes the points in the order of an accepted tree, and its boxes in rows.
pub fn lay(points: &[f32], boxes: &[f32], nodes: &[u32], order: &[u32], rows: &mut [f32])
    requires accepted_tree { AcceptedTree points.now boxes.now nodes.now order.now }
    requires points_len_bound { length points.now ≤ triangle_limit * 9 }
    requires triangle_limit_in_bounds { triangle_limit * 27 ≤ length rows.old }
    ensures { Rowed points.now order.now (box_count nodes.now) rows.new }
{
    tree_walk::inner::turn(points, order, rows);
    if nodes.len() / 3 == 0 {
        return;
    }
    node_rows(boxes, nodes, 0, DEPTH_LIMIT + 1, 0, rows);
}

// Writes the rows of box i and of all inside it, with so many levels left, from row k on. Answers the row after them.
fn node_rows(
    boxes: &[f32],
    nodes: &[u32],
    i: usize,
    levels: u8,
    k: usize,
    rows: &mut [f32],
) -> usize
    requires lays { Lays boxes.now nodes.now }
    requires i_bound { i < box_count nodes.now }
    requires i_bound_2 { (k + boxes_under nodes.now levels i < whole_limit) × (row_start (k + boxes_under nodes.now levels i) ≤ length rows.old) }
    ensures { (result ≡ k + boxes_under nodes.now levels i)
        × (rows.new ≡ with_rows boxes.now nodes.now levels i k rows.old) }
{
    if levels == 0 {
        return k;
    }
    let count = tree::inner::word_at(nodes, i * 3);
    let first = tree::inner::word_at(nodes, i * 3 + 1);
    if count == 0 {
        let right = tree::inner::word_at(nodes, i * 3 + 2);
        let middle = node_rows(boxes, nodes, first, levels - 1, k + 1, rows);
        let end = node_rows(boxes, nodes, right, levels - 1, middle, rows);
        put_row(boxes, i, k, end, 0, 0, rows);
        return end;
    }
    put_row(boxes, i, k, k + 1, first, count, rows);
    k + 1
}

// Row k: box i, the row after all inside it, where its run begins and how many triangles stand in it.
fn put_row(
    boxes: &[f32],
    i: usize,
    k: usize,
    after: usize,
    first: usize,
    count: usize,
    rows: &mut [f32],
)
    requires i_in_bounds { (i * 6 + 5 < length boxes.now) × (row_start k + 9 ≤ length rows.old) }
    requires after_lt_whole_limit { (after < whole_limit) × (first < whole_limit) × (count < whole_limit) }
    ensures { rows.new ≡ with_row rows.old k (bounds_at boxes.now i) after first count }
{
    let b = boxes::inner::bounds_at(boxes, i);
    let at = ROWS_FROM + k * 9;
    put_vec(rows, at, b.low);
    put_vec(rows, at + 3, b.high);
    let whole = Vec3 {
        x: of_pattern(after),
        y: of_pattern(first),
        z: of_pattern(count),
    };
    put_vec(rows, at + 6, whole);
}

fn put_vec(rows: &mut [f32], j: usize, v: Vec3)
    requires { j + 3 ≤ length rows.old }
    ensures { rows.new ≡ with_vec rows.old j v }
{
    rows[j] = v.x;
    rows[j + 1] = v.y;
    rows[j + 2] = v.z;
}

// The number whose bit pattern is n.
fn of_pattern(n: usize) -> f32
    requires { n < whole_limit }
    ensures { result ≡ lit n }
{
    f32::from_bits(n as u32)
}

// ---- what a row holds

// The box of row k.
pub fn bounds(rows: &[f32], k: usize) -> Bounds
    requires { row_start k + 5 < length rows.now }
    ensures { result ≡ row_bounds rows.now k }
{
    let at = ROWS_FROM + k * 9;
    let low = vectors::inner::vec_at(rows, at);
    let high = vectors::inner::vec_at(rows, at + 3);
    Bounds { low, high }
}

// The row after all that lies inside the box of row k.
pub fn after(rows: &[f32], k: usize) -> usize
    requires { (row_start k + 8 < length rows.now) × (is_nan (get_or rows.now (row_start k + 6) nan) ≡ false) }
    ensures { result ≡ row_after rows.now k }
{
    pattern_at(rows, ROWS_FROM + k * 9 + 6)
}

// Where its run begins in the order.
pub fn first(rows: &[f32], k: usize) -> usize
    requires { (row_start k + 8 < length rows.now) × (is_nan (get_or rows.now (row_start k + 7) nan) ≡ false) }
    ensures { result ≡ row_first rows.now k }
{
    pattern_at(rows, ROWS_FROM + k * 9 + 7)
}

// How many triangles stand in it.
pub fn count(rows: &[f32], k: usize) -> usize
    requires { (row_start k + 8 < length rows.now) × (is_nan (get_or rows.now (row_start k + 8) nan) ≡ false) }
    ensures { result ≡ row_count rows.now k }
{
    pattern_at(rows, ROWS_FROM + k * 9 + 8)
}

// The whole number whose bit pattern stands at place j.
pub fn pattern_at(rows: &[f32], j: usize) -> usize
    requires { (j < length rows.now) × (is_nan (get_or rows.now j nan) ≡ false) }
    ensures { result ≡ pattern_at rows.now j }
{
    f32::to_bits(rows[j]) as usize
}
