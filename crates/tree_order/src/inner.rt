// The places of the present triangles, put in the builder's order: the run of them is put in order along its widest axis and halved, and so are its halves.
ghost use Rattle.std.specs.Prelude.{◌≡◌, map, ◌++◌, ◌/◌, ◌≤◌, ◌<◌, length, drop};
ghost use Rattle.names.specs.Numbers.{triangle_limit};
ghost use Rattle.hits.specs.Hits.{paired};
ghost use Rattle.tree_order.specs.Order.{key_at, on_axis, key_on, spread_of_keys, widest_of, along_widest, halved, present_below, order_of};
ghost use Rattle.tree_order.specs.Ranks.{place_of, ranked, PlacesOf, AcceptedPoints};

use super::Axis;
use names::{LEAF_LIMIT, TRIANGLE_LIMIT};
use vectors::Vec3;

// Puts the places of the present triangles at the front of a list, in the builder's order. Answers how many there are.
#[tactic(auto, using(crate::specs::PresentLaws::present_length, crate::specs::PresentLaws::present_few, crate::specs::HalveLaws::halved_length), unfolding(crate::specs::Order::order_of))]
pub fn put_order(points: &[f32], order: &mut [u32]) -> usize
    requires { AcceptedPoints points.now × (length points.now / 9 ≤ length order.old) }
    ensures { (result ≡ length (order_of points.now)) × (order.new ≡ order_of points.now ++ drop result order.old) }
{
    let n = list_present(points, order);
    let mut keys = [0.0; TRIANGLE_LIMIT];
    let mut ranks = [0; TRIANGLE_LIMIT];
    halve(points, &mut order[..n], &mut keys, &mut ranks);
    n
}

// ---- the present places

// Lists the places of the present triangles. Answers how many there are.
#[tactic(auto, using(crate::specs::PresentLaws::present_length, crate::specs::PresentLaws::present_few), unfolding(crate::specs::Order::present_below))]
fn list_present(points: &[f32], order: &mut [u32]) -> usize
    requires { (length points.now / 9 ≤ length order.old) × (length points.now / 9 ≤ triangle_limit) }
    ensures { (result ≡ length (present_below points.now (length points.now / 9))) × (order.new ≡ present_below points.now (length points.now / 9) ++ drop result order.old) }
{
    let mut n = 0;
    for p in 0..points.len() / 9 {
        if tree::inner::present(points, p) {
            order[n] = p as u32;
            n += 1;
        }
    }
    n
}

// ---- by halves

// Puts a run of triangles in the builder's order. The last two lists are room for as many keys and ranks, and may hold anything.
#[tactic(auto, using(crate::proofs::Steps::halving))]
fn halve(points: &[f32], run: &mut [u32], keys: &mut [f32], ranks: &mut [usize])
    requires { AcceptedPoints points.now × PlacesOf points.now run.old × (length run.old ≤ triangle_limit) × (length run.old ≤ length keys.old) × (length run.old ≤ length ranks.old) }
    ensures { run.new ≡ halved points.now run.old }
{
    let n = run.len();
    if n <= LEAF_LIMIT {
        return;
    }
    along_widest(points, run, &mut keys[..n], &mut ranks[..n]);
    let half = n / 2;
    halve(points, &mut run[..half], keys, ranks);
    halve(points, &mut run[half..], keys, ranks);
}

// ---- along the widest axis

// Puts a run of triangles in order along its widest axis, with room for as many keys and ranks. The keys are put in order with the ranks, which ascend: so
// triangles with equal keys keep the order they stood in, and the work grows with n·log n whatever the keys.
#[tactic(auto, using(crate::specs::RankLaws::ranked_numbers))]
fn along_widest(points: &[f32], run: &mut [u32], keys: &mut [f32], ranks: &mut [usize])
    requires { AcceptedPoints points.now × PlacesOf points.now run.old × (0 < length run.old) × (length run.old ≤ triangle_limit) × (length keys.old ≡ length run.old) × (length ranks.old ≡ length run.old) }
    ensures { run.new ≡ along_widest points.now run.old }
{
    let axis = widest(spread(points, run));
    put_ranks(points, run, axis, keys, ranks);
    hits::inner::in_order(keys, ranks);
    put_places(ranks, run);
}

// Writes the keys of a run on an axis, and the ranks.
#[tactic(auto, using(crate::specs::RankLaws::order_place_within, crate::proofs::Steps::ranked_end), unfolding(hits::specs::Hits::paired))]
fn put_ranks(points: &[f32], run: &[u32], axis: Axis, keys: &mut [f32], ranks: &mut [usize])
    requires { PlacesOf points.now run.now × (length points.now / 9 ≤ triangle_limit) × (length run.now ≤ triangle_limit) × (length keys.old ≡ length run.now) × (length ranks.old ≡ length run.now) }
    ensures { paired keys.new ranks.new ≡ ranked (key_on points.now axis) 0 run.now }
{
    for (k, place) in run.iter().enumerate() {
        let p = *place as usize;
        keys[k] = on_axis(axis, key(points, p));
        ranks[k] = k * TRIANGLE_LIMIT + p;
    }
}

// Writes the places that ranks hold.
#[tactic(auto, using(crate::proofs::Steps::places_next, crate::proofs::Steps::places_end))]
fn put_places(ranks: &[usize], run: &mut [u32])
    requires { length ranks.now ≡ length run.old }
    ensures { run.new ≡ map place_of ranks.now }
{
    for (k, rank) in ranks.iter().enumerate() {
        run[k] = (*rank % TRIANGLE_LIMIT) as u32;
    }
}

// How far the keys of a run reach on each axis.
#[tactic(auto, using(crate::proofs::Steps::key_steps), unfolding(crate::specs::Order::spread_of_keys))]
fn spread(points: &[f32], run: &[u32]) -> Vec3
    requires { PlacesOf points.now run.now × (0 < length run.now) }
    ensures { result ≡ spread_of_keys points.now run.now }
{
    let mut low = key(points, run[0] as usize);
    let mut high = low;
    for place in &run[1..] {
        let c = key(points, *place as usize);
        low = vectors::smaller(low, c);
        high = vectors::larger(high, c);
    }
    vectors::sub(high, low)
}

// x, unless y or z spreads wider.
#[tactic(auto, unfolding(crate::specs::Order::widest_of))]
fn widest(spread: Vec3) -> Axis
    ensures { result ≡ widest_of spread }
{
    if spread.x < spread.y {
        if spread.y < spread.z {
            Axis::Z
        } else {
            Axis::Y
        }
    } else if spread.x < spread.z {
        Axis::Z
    } else {
        Axis::X
    }
}

// A triangle's key: the sum of its points, three times its centre.
#[tactic(auto, unfolding(crate::specs::Order::key_at))]
fn key(points: &[f32], p: usize) -> Vec3
    requires { p < length points.now / 9 }
    ensures { result ≡ key_at points.now p }
{
    let t = triangle::inner::at(points, p);
    vectors::add(vectors::add(t.p0, t.p1), t.p2)
}

#[tactic(auto, unfolding(crate::specs::Order::on_axis))]
fn on_axis(axis: Axis, v: Vec3) -> f32
    ensures { result ≡ on_axis axis v }
{
    match axis {
        Axis::X => v.x,
        Axis::Y => v.y,
        Axis::Z => v.z,
    }
}
