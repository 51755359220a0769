// What is met of the triangle at a place of a scene's lists.
ghost use Rattle.std.specs.Prelude.{◌≡◌, ◌+◌, ◌*◌, ◌<◌, length, get_or};
ghost use Rattle.panels.specs.Panels.{kind_at, counts, stops_light, met_at};

use names::{OPAQUE_KIND, PANEL_KIND};
use triangle::Hit;
use vectors::Ray;

// What the test answers of the triangle at place i, where the triangle counts; a miss where it does not.
#[tactic(auto, unfolding(crate::specs::Panels::met_at, crate::specs::Panels::counted_of))]
pub fn meet_at(points: &[f32], uses: &[u32], kinds: &[u8], i: usize, ray: Ray) -> Option<Hit>
    requires { (i * 9 + 8 < length points.now) × (i < length uses.now) × (get_or uses.now i 0 < length kinds.now) }
    ensures { result ≡ met_at points.now uses.now kinds.now ray i }
{
    let hit = triangle::inner::test(ray, triangle::inner::at(points, i))?;
    if counts_at(uses, kinds, i, hit.front) {
        Some(hit)
    } else {
        None
    }
}

// Whether the triangle at place i counts from a side. From the front every triangle does, so that the material is looked up from behind alone.
#[tactic(auto, unfolding(crate::specs::Panels::counts))]
fn counts_at(uses: &[u32], kinds: &[u8], i: usize, front: bool) -> bool
    requires { (i < length uses.now) × (get_or uses.now i 0 < length kinds.now) }
    ensures { result ≡ counts (kind_at uses.now kinds.now i) front }
{
    front || kind_at(uses, kinds, i) != PANEL_KIND
}

// The kind of the material that the triangle at place i uses.
pub fn kind_at(uses: &[u32], kinds: &[u8], i: usize) -> u8
    requires { (i < length uses.now) × (get_or uses.now i 0 < length kinds.now) }
    ensures { result ≡ kind_at uses.now kinds.now i }
{
    kinds[uses[i] as usize]
}

// Whether a triangle of a kind stops all light where it counts.
#[tactic(auto, unfolding(crate::specs::Panels::stops_light))]
pub fn stops_light(kind: u8) -> bool
    ensures { result ≡ stops_light kind }
{
    (kind == OPAQUE_KIND) | (kind == PANEL_KIND)
}
