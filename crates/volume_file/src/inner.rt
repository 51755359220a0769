// What the volume's calls ask of a file.
ghost use Rattle.std.specs.Prelude.{◌≡◌, ◌+◌, ◌*◌, ◌<◌, ◌≤◌, length};
ghost use Rattle.grid.specs.Grid.{AxesWithin};
ghost use Rattle.bytes_le.specs.Bytes.{floats_at, bytes_at};
ghost use Rattle.lists.specs.Some.{some};
ghost use Rattle.limits.specs.Limits.{outside, bad_mask};
ghost use Rattle.contents.specs.Contents.{offset_at};
ghost use Rattle.contents.specs.Laid.{Laid};
ghost use Rattle.names.specs.Numbers.{voxel_limit};
ghost use Rattle.volume_file.specs.VolumeFile.{vector_at, corners_at, bad_bodies, faulty};

use grid::{Axes, Corners};
use names::{COEFFICIENT_LIMIT, LIGHT_LIMIT};
use vectors::Vec3;

// Whether the bytes are no volume file.
#[tactic(auto, using(contents::proofs::ContentsLaws::headed_found, crate::proofs::Judge::to_axes, grid::specs::GridLaws::voxels_most), unfolding(crate::specs::VolumeFile::faulty))]
pub fn is_faulty(s: &[u8]) -> bool
    ensures { result ≡ faulty s.now }
{
    if !contents::inner::is_headed(s) {
        return true;
    }
    let axes = contents::inner::axes_at(s);
    if limits::inner::bad_axes(axes) {
        return true;
    }
    let entries = contents::inner::entries_at(s);
    let n = grid::inner::voxel_count(axes);
    if !contents::inner::contents_fit(s, entries, n) {
        return true;
    }
    bad_bodies(s, axes, n)
}

// The offset of entry i.
pub fn offset_at(s: &[u8], i: usize) -> usize
    requires { (12 + i * 12 + 12 ≤ length s.now) × (i < 16) }
    ensures { result ≡ offset_at s.now i }
{
    bytes_le::inner::u32_at(s, 12 + i * 12 + 4) as usize
}

// The six floats of the fifth body.
#[tactic(auto, unfolding(crate::specs::VolumeFile::corners_at))]
pub fn corners_at(s: &[u8]) -> Corners
    requires { (72 ≤ length s.now) × (offset_at s.now 4 + 24 ≤ length s.now) }
    ensures { result ≡ corners_at s.now }
{
    let at = offset_at(s, 4);
    Corners {
        min: vector_at(s, at),
        max: vector_at(s, at + 12),
    }
}

// Whether a number of the bodies is bad: the corners with the axes, the light, the coefficients, the two masks.
#[tactic(auto, unfolding(crate::specs::VolumeFile::bad_bodies, limits::specs::Limits::bad_lights, limits::specs::Limits::bad_coefficients))]
fn bad_bodies(s: &[u8], axes: Axes, n: usize) -> bool
    requires { (72 ≤ length s.now) × AxesWithin axes × Laid s.now n × (n ≤ voxel_limit) }
    ensures { result ≡ bad_bodies s.now axes n }
{
    let grid = limits::inner::bad_grid(corners_at(s), axes);
    let light = bad_floats(s, offset_at(s, 0), n, LIGHT_LIMIT);
    let volume = bad_floats(s, offset_at(s, 1), n * 16, COEFFICIENT_LIMIT);
    let active = bad_mask(s, offset_at(s, 2), n);
    let occupied = bad_mask(s, offset_at(s, 3), n);
    grid | light | volume | active | occupied
}

// Whether one of the n numbers from `at` on is not finite or beyond ±b. It goes to the end, so that several are tested at once.
#[tactic(auto, using(crate::proofs::Scan::more, crate::proofs::Scan::all))]
fn bad_floats(s: &[u8], at: usize, n: usize, b: f32) -> bool
    requires { at + n * 4 ≤ length s.now }
    ensures { result ≡ some (outside b) (floats_at s.now at n) }
{
    let mut any = false;
    for i in 0..n {
        any |= limits::inner::out_of(b, bytes_le::inner::f32_at(s, at + i * 4));
    }
    any
}

// Whether one of the n bytes from `at` on is not 0 or 1.
fn bad_mask(s: &[u8], at: usize, n: usize) -> bool
    requires { at + n ≤ length s.now }
    ensures { result ≡ bad_mask (bytes_at s.now at n) }
{
    limits::inner::bad_mask(&s[at..at + n])
}

fn vector_at(s: &[u8], at: usize) -> Vec3
    requires { at + 12 ≤ length s.now }
    ensures { result ≡ vector_at s.now at }
{
    Vec3 {
        x: bytes_le::inner::f32_at(s, at),
        y: bytes_le::inner::f32_at(s, at + 4),
        z: bytes_le::inner::f32_at(s, at + 8),
    }
}
