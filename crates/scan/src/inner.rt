// The scans. Each takes the scene's four lists, which fit each other (`Sound`): the tests of the public calls have shown it.
ghost use Rattle.std.specs.Prelude.{◌≡◌, ℕ, ◌+◌, ◌*◌, ◌≤◌, ◌<◌, length, get_or};
ghost use Rattle.names.specs.Bits.{one32};
ghost use Rattle.names.specs.Scene.{Sound, scene_of, HitsFit};
ghost use Rattle.triangle.specs.Missed.{Missed};
ghost use Rattle.scan.specs.Nearest.{beats, nearer_of, nearest_of};
ghost use Rattle.scan.specs.FirstHit.{FirstFrom};
ghost use Rattle.scan.specs.OpaqueLaws.{clear_pass_of};
ghost use Rattle.scan.specs.Transmittance.{transmittance_of};

use super::PlacedHit;
use names::FAINT_LIMIT;
use vectors::Ray;

// ---- the nearest hit

// The nearest hit of the ray among all triangles that count; among equal distances the one of the highest place.
#[tactic(auto, using(crate::specs::FirstHit::nearest_over), unfolding(crate::specs::Nearest::nearest_to, crate::specs::Nearest::nearest_of))]
pub fn nearest(
    points: &[f32],
    uses: &[u32],
    kinds: &[u8],
    numbers: &[f32],
    ray: Ray,
) -> Option<PlacedHit>
    requires { Sound (scene_of points.now uses.now kinds.now numbers.now) }
    ensures { result ≡ nearest_of (scene_of points.now uses.now kinds.now numbers.now) ray }
{
    let n = uses.len();
    let mut best = None;
    let mut i = 0;
    while let Some(met) = first_hit(points, uses, kinds, i, n, ray) {
        best = nearer(best, met);
        i = met.place + 1;
    }
    best
}

// The better of what is held and what is met.
#[tactic(auto, unfolding(crate::specs::Nearest::nearer_of))]
pub fn nearer(best: Option<PlacedHit>, met: PlacedHit) -> Option<PlacedHit>
    ensures { result ≡ nearer_of best met.place (Some met.hit) }
{
    match best {
        Some(held) if !beats(met, held) => best,
        _ => Some(met),
    }
}

// Whether what is met is kept over what is held.
#[tactic(auto, unfolding(crate::specs::Nearest::beats))]
fn beats(met: PlacedHit, held: PlacedHit) -> bool
    ensures { result ≡ beats met.hit.t met.place held.hit.t held.place }
{
    met.hit.t < held.hit.t || (met.hit.t == held.hit.t && held.place < met.place)
}

// ---- how much light passes

// How much light passes along the ray: the hits by distance, then by place, and the product of their transmissions. The two scratch lists hold
// the hits on the way: in the list's order first, then in their own; where every material is opaque they hold none, and may be empty. A hit that stops light leaves nothing at whatever place of the order (`opaque_dark`),
// so the scan ends at the first it meets; the Rust collects all hits and sorts them.
pub fn transmittance(
    points: &[f32],
    uses: &[u32],
    kinds: &[u8],
    numbers: &[f32],
    ray: Ray,
    distances: &mut [f32],
    places: &mut [usize],
) -> f32
    requires sound { Sound (scene_of points.now uses.now kinds.now numbers.now) }
    requires hits_fit { HitsFit (scene_of points.now uses.now kinds.now numbers.now) (length distances.old) (length places.old) }
    ensures { result ≡ transmittance_of (scene_of points.now uses.now kinds.now numbers.now) ray }
{
    let n = uses.len();
    let mut m = 0;
    let mut i = 0;
    // after a hit the next triangle is searched by itself: it is often one too, and a run would be looked over for nothing
    let mut end = n;
    while i < n {
        match first_hit(points, uses, kinds, i, end, ray) {
            None => {
                i = end;
                end = n;
            }
            Some(met) => {
                if panels::inner::stops_light(panels::inner::kind_at(uses, kinds, met.place)) {
                    return 0.0;
                }
                distances[m] = met.hit.t;
                places[m] = met.place;
                m += 1;
                i = met.place + 1;
                end = n.min(i + 1);
            }
        }
    }
    hits::inner::in_order(&mut distances[..m], &mut places[..m]);
    product(uses, numbers, &places[..m])
}

// The product of the transmissions at these places, in order. None stops light: the scan ends at the first that does.
#[tactic(auto, using(crate::proofs::Passing::clear_step), unfolding(crate::specs::OpaqueLaws::clear_pass_of))]
pub fn product(uses: &[u32], numbers: &[f32], places: &[usize]) -> f32
    requires by_index { (i : ℕ) → i < length uses.now → get_or uses.now i 0 * 7 + 6 < length numbers.now }
    requires by_index_2 { (j : ℕ) → j < length places.now → get_or places.now j 0 < length uses.now }
    ensures { result ≡ clear_pass_of uses.now numbers.now one32 places.now }
{
    let mut w = 1.0;
    for p in places {
        let k = uses[*p] as usize;
        w = w * numbers[k * 7 + 6];
        if w <= FAINT_LIMIT {
            return 0.0;
        }
    }
    w
}

// ---- the search that both go by

// How many triangles are looked over at once: enough that the compiler takes them four by four, and few, since after a hit the rest is looked over
// again.
const RUN: usize = 8;

// The first hit from place i up to place n, in the list's order. Triangles that are surely missed are passed over, whatever their materials; the test
// decides of one that may be met, and its kind and side whether it counts. Inlined into both scans, since a hit would come through memory.
#[inline(always)]
pub fn first_hit(
    points: &[f32],
    uses: &[u32],
    kinds: &[u8],
    from: usize,
    n: usize,
    ray: Ray,
) -> Option<PlacedHit>
    requires from_le_n { (from ≤ n) × (n * 9 ≤ length points.now) × (n ≤ length uses.now) }
    requires by_index { (i : ℕ) → i < length uses.now → get_or uses.now i 0 < length kinds.now }
    ensures { FirstFrom points.now uses.now kinds.now ray from n result }
{
    let mut i = from;
    while i < n {
        let place = may_hit(points, i, n, ray);
        if place == n {
            return None;
        }
        if let Some(hit) = panels::inner::meet_at(points, uses, kinds, place, ray) {
            return Some(PlacedHit { place, hit });
        }
        i = place + 1;
    }
    None
}

// As `first_open`, but a single triangle is left to the test.
fn may_hit(points: &[f32], i: usize, n: usize, ray: Ray) -> usize
    requires { (i < n) × (n * 9 ≤ length points.now) }
    ensures { (i ≤ result) × (result ≤ n) × Missed points.now ray i result }
{
    if i + 1 < n {
        first_open(points, i, n, ray)
    } else {
        i
    }
}

// A place from i up to n before which all are missed: the first that the ray may meet, or n. The loop over runs knows nothing of what follows a hit, so that
// the compiler keeps all that it needs in registers.
pub fn first_open(points: &[f32], from: usize, n: usize, ray: Ray) -> usize
    requires { (from ≤ n) × (n * 9 ≤ length points.now) }
    ensures { (from ≤ result) × (result ≤ n) × Missed points.now ray from result }
{
    let mut i = from;
    while i < n {
        let k = (n - i).min(RUN) as u16;
        let c = triangle::inner::clear(points, i, k, ray);
        i += c as usize;
        if c < k {
            return i;
        }
    }
    n
}
