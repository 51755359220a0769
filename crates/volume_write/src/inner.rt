// The writing itself, once axes, corners and lists are known to fit.
ghost use Rattle.std.specs.Prelude.{◌≡◌, [], ◌∷◌, ◌+◌, ◌*◌, ◌≤◌, length};
ghost use Rattle.std.proofs.lemmas.List.Edits.{sets};
ghost use Rattle.names.specs.Numbers.{voxel_limit};
ghost use Rattle.grid.specs.Grid.{voxels};
ghost use Rattle.words.specs.Words.{word_count, entries_of};
ghost use Rattle.bytes_le.specs.Bytes.{encode, NoneNan};
ghost use Rattle.volume_write.specs.FileBytes.{contents_of, corners_list, file_bytes, Lent};

use grid::{Axes, Corners};
use vectors::Vec3;

// Writes the whole file over `bytes`.
#[tactic(auto, using(grid::specs::GridLaws::voxels_most))]
pub fn put_file(
    bytes: &mut [u8],
    axes: Axes,
    n: usize,
    corners: Corners,
    light: &[f32],
    volume: &[f32],
    active: &[u64],
    occupied: &[u64],
)
    requires { Lent axes n (length light.now) (length volume.now) (length active.now) (length occupied.now) (length bytes.old) × NoneNan light.now × NoneNan volume.now }
    ensures { bytes.new ≡ file_bytes axes corners light.now volume.now (entries_of active.now (voxels axes)) (entries_of occupied.now (voxels axes)) }
{
    contents::inner::put_head(bytes, axes);
    put_contents(bytes, n);
    bytes_le::inner::put_floats(bytes, 72, light);
    bytes_le::inner::put_floats(bytes, 72 + n * 4, volume);
    put_mask(bytes, 72 + n * 68, active, n);
    put_mask(bytes, 72 + n * 69, occupied, n);
    put_corners(bytes, 72 + n * 70, corners);
}

// Writes the five entries of a file of n voxels.
#[tactic(auto, using(bytes_le::specs::BytesLaws::sets_after), unfolding(crate::specs::FileBytes::contents_of))]
fn put_contents(bytes: &mut [u8], n: usize)
    requires { (72 ≤ length bytes.old) × (n ≤ voxel_limit) }
    ensures { bytes.new ≡ sets bytes.old 12 (contents_of n) }
{
    contents::inner::put_entry(bytes, 12, 1, 72, n * 4);
    contents::inner::put_entry(bytes, 24, 2, 72 + n * 4, n * 64);
    contents::inner::put_entry(bytes, 36, 3, 72 + n * 68, n);
    contents::inner::put_entry(bytes, 48, 4, 72 + n * 69, n);
    contents::inner::put_entry(bytes, 60, 5, 72 + n * 70, 24);
}

// Writes the n entries of a mask, a byte each, from `at` on.
#[tactic(auto, using(crate::proofs::Whole::part_set))]
fn put_mask(bytes: &mut [u8], at: usize, words: &[u64], n: usize)
    requires { (length words.now ≡ word_count n) × (at + n ≤ length bytes.old) }
    ensures { bytes.new ≡ sets bytes.old at (entries_of words.now n) }
{
    words::inner::unpack(words, &mut bytes[at..at + n]);
}

// Writes the six corner floats from `at` on.
#[tactic(auto, using(bytes_le::specs::BytesLaws::sets_after), unfolding(bytes_le::specs::Bytes::encode))]
fn put_corners(bytes: &mut [u8], at: usize, corners: Corners)
    requires { at + 24 ≤ length bytes.old }
    ensures { bytes.new ≡ sets bytes.old at (encode (corners_list corners)) }
{
    put_vector(bytes, at, corners.min);
    put_vector(bytes, at + 12, corners.max);
}

#[tactic(auto, using(bytes_le::specs::BytesLaws::sets_after), unfolding(bytes_le::specs::Bytes::encode))]
fn put_vector(bytes: &mut [u8], at: usize, v: Vec3)
    requires { at + 12 ≤ length bytes.old }
    ensures { bytes.new ≡ sets bytes.old at (encode (v.x ∷ v.y ∷ v.z ∷ [])) }
{
    bytes_le::inner::put_f32(bytes, at, v.x);
    bytes_le::inner::put_f32(bytes, at + 4, v.y);
    bytes_le::inner::put_f32(bytes, at + 8, v.z);
}
