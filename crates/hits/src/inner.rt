// Hits put in order, by distance and then by place. A hit stands at one place of two lists: its distance in the one, its triangle's place in the other.
// Few hits are inserted one by one; many are put in order by halves, which are merged.
ghost use Rattle.std.specs.Prelude.{◌≡◌, ◌+◌, ◌≤◌, ◌<◌, length, take, drop};
ghost use Rattle.hits.specs.Hits.{struck, before, rank_of, insert_at, insert_of, paired};
ghost use Rattle.hits.specs.Merge.{insert_all, sort_of, merge_of, takes_second, Numbers};

// As many hits as a ray can have.
const MOST: usize = 4096;

// Up to so many hits are inserted one by one; with more, the room to merge them pays.
const FEW: usize = 96;

// Halves of up to so many hits are not halved again.
const SHORT: usize = 8;

// Puts hits in order.
#[tactic(auto, unfolding(crate::specs::Hits::paired))]
pub fn in_order(distances: &mut [f32], places: &mut [usize])
    requires { (length distances.old ≡ length places.old) × Numbers (paired distances.old places.old) }
    ensures { paired distances.new places.new ≡ sort_of (paired distances.old places.old) }
{
    if distances.len() <= FEW {
        one_by_one(distances, places, 0);
        return;
    }
    many(distances, places);
}

// ---- many, by halves

// Puts hits in order with room for as many again. No ray has more hits than there is room for; if one had, those past it would be inserted one by one. A
// function that calls itself is not made part of its caller, so that only a ray with many hits takes the room.
fn many(distances: &mut [f32], places: &mut [usize])
    requires { (length distances.old ≡ length places.old) × Numbers (paired distances.old places.old) }
    ensures { paired distances.new places.new ≡ sort_of (paired distances.old places.old) }
{
    let n = distances.len();
    if MOST < n {
        many(&mut distances[..MOST], &mut places[..MOST]);
        one_by_one(distances, places, MOST);
        return;
    }
    let mut ts = [0.0; MOST];
    let mut is = [0; MOST];
    with_room(distances, places, &mut ts[..n], &mut is[..n]);
}

// Puts hits in order with two lists as long, which may hold anything.
fn with_room(distances: &mut [f32], places: &mut [usize], ts: &mut [f32], is: &mut [usize])
    requires { (length distances.old ≡ length places.old) × (length ts.old ≡ length distances.old) × (length is.old ≡ length places.old) × Numbers (paired distances.old places.old) }
    ensures { paired distances.new places.new ≡ sort_of (paired distances.old places.old) }
{
    ts.copy_from_slice(distances);
    is.copy_from_slice(places);
    by_halves(distances, places, ts, is);
}

// Puts hits in order. The last two lists hold the same hits; their halves are put in order, and merged into the first two.
#[tactic(auto, using(crate::proofs::Lists::halving), unfolding(crate::specs::Hits::paired))]
fn by_halves(distances: &mut [f32], places: &mut [usize], ts: &mut [f32], is: &mut [usize])
    requires { (length distances.old ≡ length places.old) × (ts.old ≡ distances.old) × (is.old ≡ places.old) × Numbers (paired distances.old places.old) }
    ensures { paired distances.new places.new ≡ sort_of (paired distances.old places.old) }
{
    let n = distances.len();
    if n <= SHORT {
        one_by_one(distances, places, 0);
        return;
    }
    let half = n / 2;
    by_halves(
        &mut ts[..half],
        &mut is[..half],
        &mut distances[..half],
        &mut places[..half],
    );
    by_halves(
        &mut ts[half..],
        &mut is[half..],
        &mut distances[half..],
        &mut places[half..],
    );
    merge(ts, is, half, distances, places);
}

// The hits before place `half` and those from there on, merged into two other lists.
#[tactic(auto, using(crate::proofs::Lists::merging), unfolding(crate::specs::Merge::merge_of, crate::specs::Hits::paired))]
fn merge(distances: &[f32], places: &[usize], half: usize, ts: &mut [f32], is: &mut [usize])
    requires { (length distances.now ≡ length places.now) × (half ≤ length distances.now) × (length ts.old ≡ length distances.now) × (length is.old ≡ length distances.now) }
    ensures { paired ts.new is.new ≡ merge_of (paired (take half distances.now) (take half places.now)) (paired (drop half distances.now) (drop half places.now)) }
{
    let mut i = 0;
    let mut j = half;
    for k in 0..distances.len() {
        if takes_second(distances, places, half, i, j) {
            ts[k] = distances[j];
            is[k] = places[j];
            j += 1;
        } else {
            ts[k] = distances[i];
            is[k] = places[i];
            i += 1;
        }
    }
}

// Whether, of what is left of the first half from i on and of the second from j on, the second's head comes next.
#[tactic(auto, using(crate::proofs::Lists::heads), unfolding(crate::specs::Merge::takes_second))]
fn takes_second(distances: &[f32], places: &[usize], half: usize, i: usize, j: usize) -> bool
    requires { (length distances.now ≡ length places.now) × (i ≤ half) × (half ≤ j) × (j ≤ length distances.now) }
    ensures { result ≡ takes_second (paired (drop i (take half distances.now)) (drop i (take half places.now))) (paired (drop j distances.now) (drop j places.now)) }
{
    j < distances.len()
        && (i == half || comes_before(distances[j], places[j], distances[i], places[i]))
}

// ---- few, one by one

// Puts the hits from place `from` on, one after the other, into their places among those before them.
#[tactic(auto, using(crate::proofs::Lists::heads), unfolding(crate::specs::Merge::insert_all))]
fn one_by_one(distances: &mut [f32], places: &mut [usize], from: usize)
    requires { (length distances.old ≡ length places.old) × (from ≤ length distances.old) }
    ensures { paired distances.new places.new ≡ insert_all (paired (take from distances.old) (take from places.old)) (paired (drop from distances.old) (drop from places.old)) }
{
    for m in from..distances.len() {
        let t = distances[m];
        let i = places[m];
        add_hit(distances, places, m, t, i);
    }
}

// Puts a hit into its place among the first m.
#[tactic(auto, using(crate::proofs::Lists::rank_within))]
fn add_hit(distances: &mut [f32], places: &mut [usize], m: usize, t: f32, i: usize)
    requires { (m < length distances.old) × (m < length places.old) }
    ensures { (paired (take (m + 1) distances.new) (take (m + 1) places.new) ≡ insert_of (struck t i) (paired (take m distances.old) (take m places.old)))
        × (drop (m + 1) distances.new ≡ drop (m + 1) distances.old) × (drop (m + 1) places.new ≡ drop (m + 1) places.old) }
{
    let j = rank(&distances[..m], &places[..m], t, i);
    put(distances, j, m, t);
    put(places, j, m, i);
}

// Where a hit at distance t and place i goes: after each that it does not come before. Out of line: within `one_by_one` what is carried up after it takes
// registers from its loop.
#[inline(never)]
#[tactic(auto, using(crate::proofs::Lists::rank_step, crate::proofs::Lists::rest_none), unfolding(crate::specs::Hits::rank_of, crate::specs::Hits::paired))]
fn rank(distances: &[f32], places: &[usize], t: f32, i: usize) -> usize
    requires { length distances.now ≡ length places.now }
    ensures { result ≡ rank_of (struck t i) (paired distances.now places.now) }
{
    for j in 0..distances.len() {
        if comes_before(t, i, distances[j], places[j]) {
            return j;
        }
    }
    distances.len()
}

// By distance, then by place. Branches: joined to one value, a comparison takes twice the instructions.
#[tactic(auto, unfolding(crate::specs::Hits::before))]
fn comes_before(t: f32, i: usize, s: f32, j: usize) -> bool
    ensures { result ≡ before (struck t i) (struck s j) }
{
    if t < s {
        return true;
    }
    if t == s {
        return i < j;
    }
    false
}

// Puts x at place j among the first m, and carries what stood there up.
fn put<T: Copy>(s: &mut [T], j: usize, m: usize, x: T)
    requires { (j ≤ m) × (m < length s.old) }
    ensures { (take (m + 1) s.new ≡ insert_at j x (take m s.old)) × (drop (m + 1) s.new ≡ drop (m + 1) s.old) }
{
    s.copy_within(j..m, j + 1);
    s[j] = x;
}
