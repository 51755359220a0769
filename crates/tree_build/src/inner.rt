// The boxes of a run of triangles, by halves: "a builder that halves a run of triangles until four or fewer remain". The order of the triangles is given.
ghost use Rattle.std.specs.Prelude.{◌≡◌, ◌+◌, ◌-◌, ◌*◌, ◌/◌, ◌≤◌, ◌<◌, length, get_or};
ghost use Rattle.tree_build.specs.Built.{join_of, own_box, run_bounds, PlacesIn, RunFits, PutVec, PutBounds, PutNode, Grown, TreeRoom, TreePut};

use boxes::Bounds;
use names::LEAF_LIMIT;
use vectors::Vec3;

// Writes the boxes of the tree of the first m triangles of an order, from the front of two lists on. Answers how many there are.
#[tactic(auto, using(crate::specs::GrownLaws::run_put))]
pub fn put_tree(
    points: &[f32],
    boxes: &mut [f32],
    nodes: &mut [u32],
    order: &[u32],
    m: usize,
) -> usize
    requires { TreeRoom points.now boxes.old nodes.old order.now m }
    ensures { TreePut points.now boxes.old boxes.new nodes.old nodes.new order.now m result }
{
    if m == 0 {
        return 0;
    }
    grow(points, boxes, nodes, order, 0, 0, m)
}

// Writes the boxes of a run of triangles from box `at` on. Answers the box after them.
#[tactic(auto, using(crate::specs::BuiltLaws::built_fewer, crate::specs::GrownLaws::leaf_grown))]
fn grow(
    points: &[f32],
    boxes: &mut [f32],
    nodes: &mut [u32],
    order: &[u32],
    at: usize,
    first: usize,
    count: usize,
) -> usize
    requires { RunFits points.now boxes.old nodes.old order.now at first count }
    ensures { Grown points.now boxes.old boxes.new nodes.old nodes.new order.now at first count result }
{
    if count <= LEAF_LIMIT {
        put_run(points, boxes, order, at, first, count);
        put_node(nodes, at, count as u32, first as u32, 0);
        return at + 1;
    }
    let half = count / 2;
    let middle = grow(points, boxes, nodes, order, at + 1, first, half);
    let end = grow(
        points,
        boxes,
        nodes,
        order,
        middle,
        first + half,
        count - half,
    );
    put_run(points, boxes, order, at, first, count);
    put_node(nodes, at, 0, (at + 1) as u32, middle as u32);
    end
}

// Writes the bounds of a run of triangles as those of box `at`.
fn put_run(points: &[f32], boxes: &mut [f32], order: &[u32], at: usize, first: usize, count: usize)
    requires le_count { (1 ≤ count) × (first + count ≤ length order.now) × (at * 6 + 6 ≤ length boxes.old) }
    requires places { PlacesIn points.now order.now first count }
    ensures { PutBounds boxes.old boxes.new at (run_bounds points.now order.now first (count - 1)) }
{
    let b = run_bounds(points, order, first, count);
    put_vec(boxes, at * 6, b.low);
    put_vec(boxes, at * 6 + 3, b.high);
}

// The box around a run of triangles.
#[tactic(auto, using(crate::specs::JoinLaws::run_next), unfolding(crate::specs::Built::run_bounds))]
fn run_bounds(points: &[f32], order: &[u32], first: usize, count: usize) -> Bounds
    requires le_count { (1 ≤ count) × (first + count ≤ length order.now) }
    requires places { PlacesIn points.now order.now first count }
    ensures { result ≡ run_bounds points.now order.now first (count - 1) }
{
    let mut b = own_box(points, order, first);
    for k in 1..count {
        b = join(b, own_box(points, order, first + k));
    }
    b
}

// The padded box of the triangle at a place of the order.
fn own_box(points: &[f32], order: &[u32], k: usize) -> Bounds
    requires { (k < length order.now) × (get_or order.now k 0 < length points.now / 9) }
    ensures { result ≡ own_box points.now order.now k }
{
    boxes::inner::padded(triangle::inner::at(points, order[k] as usize))
}

// The box around two.
#[tactic(auto, unfolding(crate::specs::Built::join_of))]
fn join(a: Bounds, b: Bounds) -> Bounds
    ensures { result ≡ join_of a b }
{
    Bounds {
        low: vectors::smaller(a.low, b.low),
        high: vectors::larger(a.high, b.high),
    }
}

// ---- what is written

#[tactic(auto, using(crate::specs::WriteLaws::vec_put))]
fn put_vec(boxes: &mut [f32], k: usize, v: Vec3)
    requires { k + 3 ≤ length boxes.old }
    ensures { PutVec boxes.old boxes.new k v }
{
    boxes[k] = v.x;
    boxes[k + 1] = v.y;
    boxes[k + 2] = v.z;
}

fn put_node(nodes: &mut [u32], at: usize, count: u32, left: u32, right: u32)
    requires { at * 3 + 3 ≤ length nodes.old }
    ensures { PutNode nodes.old nodes.new at count left right }
{
    let k = at * 3;
    nodes[k] = count;
    nodes[k + 1] = left;
    nodes[k + 2] = right;
}
