// The test of one triangle, and a triangle out of a lent list of points.
ghost use Rattle.std.specs.Prelude.{◌≡◌, cond, ◌+◌, ◌*◌, ◌≤◌, ◌<◌, length};
ghost use Rattle.triangle.specs.Places.{triangle_at};
ghost use Rattle.triangle.specs.Meet.{absent_of, solved_of, front_of, judged_of, meet_of};
ghost use Rattle.triangle.specs.Halves.{half_solved_of, rest_solved_of, beside_of};
ghost use Rattle.triangle.specs.Missed.{outside_of, Missed};

use super::{HalfSolved, Hit, Solved};
use names::{FLAT_LIMIT, THIN_LIMIT};
use vectors::{Ray, Triangle, Vec3};

// the largest finite number: "A non-finite t is a miss"
const LARGEST: f32 = 3.4028235e38;

// Where the ray meets the triangle, between the ray's shortest and longest distance. As in the Rust, u is asked before v and t are computed. An absent
// triangle is met nowhere; hits are rare, so absence is asked at a hit alone, and a miss is a miss either way (`judged_missed`). Inlined, since its answer
// would come through memory.
#[inline(always)]
pub fn test(ray: Ray, triangle: Triangle) -> Option<Hit>
    ensures { result ≡ meet_of ray triangle }
{
    let h = half_solved(ray, triangle);
    if beside(h.u) {
        return None;
    }
    let hit = judged(rest_solved(ray.direction, h), ray.shortest, ray.longest)?;
    if absent(triangle) { None } else { Some(hit) }
}

// Whether the triangle is so thin that it counts nowhere.
#[tactic(auto, unfolding(crate::specs::Meet::absent_of))]
pub fn absent(triangle: Triangle) -> bool
    ensures { result ≡ absent_of triangle }
{
    let p0 = triangle.p0;
    let n = vectors::cross(vectors::sub(triangle.p1, p0), vectors::sub(triangle.p2, p0));
    vectors::dot(n, n) <= THIN_LIMIT
}

// The determinant, u, v and t. Where the determinant is 0 the others are infinite or no number, and the judgement misses before it reads them.
#[tactic(auto, using(crate::specs::Halves::two_halves))]
fn solve(ray: Ray, triangle: Triangle) -> Solved
    ensures { result ≡ solved_of ray triangle }
{
    rest_solved(ray.direction, half_solved(ray, triangle))
}

#[tactic(auto, unfolding(crate::specs::Halves::half_solved_of))]
fn half_solved(ray: Ray, triangle: Triangle) -> HalfSolved
    ensures { result ≡ half_solved_of ray triangle }
{
    let p0 = triangle.p0;
    let e1 = vectors::sub(triangle.p1, p0);
    let e2 = vectors::sub(triangle.p2, p0);
    let p = vectors::cross(ray.direction, e2);
    let det = vectors::dot(e1, p);
    let inverse = 1.0 / det;
    let s = vectors::sub(ray.origin, p0);
    let u = vectors::dot(s, p) * inverse;
    HalfSolved {
        e1,
        e2,
        s,
        det,
        inverse,
        u,
    }
}

#[tactic(auto, unfolding(crate::specs::Halves::rest_solved_of))]
fn rest_solved(direction: Vec3, h: HalfSolved) -> Solved
    ensures { result ≡ rest_solved_of direction h }
{
    let q = vectors::cross(h.s, h.e1);
    let v = vectors::dot(direction, q) * h.inverse;
    let t = vectors::dot(h.e2, q) * h.inverse;
    Solved {
        det: h.det,
        u: h.u,
        v,
        t,
    }
}

// Whether u is outside 0..1 or no number.
#[tactic(auto, unfolding(crate::specs::Halves::beside_of))]
fn beside(u: f32) -> bool
    ensures { result ≡ beside_of u }
{
    !((0.0 <= u) & (u <= 1.0))
}

// The tests, in the Rust's order and with its answers where a number is no number.
#[tactic(auto, unfolding(crate::specs::Meet::judged_of))]
fn judged(s: Solved, shortest: f32, longest: f32) -> Option<Hit>
    ensures { result ≡ judged_of s shortest longest }
{
    if floats::magnitude(s.det) <= FLAT_LIMIT
        || !(0.0 <= s.u)
        || !(s.u <= 1.0)
        || s.v < 0.0
        || s.u + s.v > 1.0
        || s.t < shortest
        || s.t > longest
        || !(floats::magnitude(s.t) <= LARGEST)
    {
        return None;
    }
    Some(Hit {
        t: s.t,
        u: s.u,
        v: s.v,
        front: front(s.det),
    })
}

// Which side is met: the front where the determinant is above zero.
#[tactic(auto, unfolding(crate::specs::Meet::front_of))]
fn front(det: f32) -> bool
    ensures { result ≡ front_of det }
{
    0.0 < det
}

// How many triangles from place i on, at most k, the ray surely misses. The loop has no branch and no store, so that the compiler asks four triangles
// at once, and counts in u16: SSE2 can take the lesser of each of eight pairs of them at once.
pub fn clear(points: &[f32], i: usize, k: u16, ray: Ray) -> u16
    requires { (i + k) * 9 ≤ length points.now }
    ensures { (result ≤ k) × Missed points.now ray i (i + result) }
{
    let mut c = k;
    for j in 0..k {
        let s = solve(ray, at(points, i + j as usize));
        let open = if outside(s, ray.shortest, ray.longest) {
            k
        } else {
            j
        };
        c = c.min(open);
    }
    c
}

// Whether u, v and t alone show a miss. No test is skipped: each is cheaper than a branch.
#[tactic(auto, unfolding(crate::specs::Missed::outside_of))]
fn outside(s: Solved, shortest: f32, longest: f32) -> bool
    ensures { result ≡ outside_of s shortest longest }
{
    !(0.0 <= s.u) | (s.v < 0.0) | (s.u + s.v > 1.0) | (s.t < shortest) | (s.t > longest)
}

// The triangle at place i: nine numbers, p0 xyz, p1 xyz, p2 xyz.
#[tactic(auto, unfolding(crate::specs::Places::triangle_at))]
pub fn at(points: &[f32], i: usize) -> Triangle
    requires { i * 9 + 8 < length points.now }
    ensures { result ≡ triangle_at points.now i }
{
    let k = i * 9;
    let p0 = vectors::inner::vec_at(points, k);
    let p1 = vectors::inner::vec_at(points, k + 3);
    let p2 = vectors::inner::vec_at(points, k + 6);
    Triangle { p0, p1, p2 }
}
