// The volume file: a grid's axes, corners, light, coefficients and masks in one list of bytes. Reader and writer work over lent lists;
// a file is judged whole before anything is written.
#![tactic(auto)]

ghost use Rattle.std.specs.Prelude.{◌≡◌, ◌+◌, ◌*◌, ◌≤◌, length};
ghost use Rattle.names.specs.Answers.{answer_number};
ghost use Rattle.names.specs.Numbers.{voxel_limit};
ghost use Rattle.bytes_le.specs.Bytes.{f32_at, floats_at, bytes_at};
ghost use Rattle.marks.specs.Marks.{marked_count};
ghost use Rattle.words.specs.Words.{word_count, words_of};
ghost use Rattle.volume.specs.Volume.{head_told, needed_told, figures_told, zero_count, wrong_volume_lists, wrong_bytes, bad_lists, write_refusal, FileAxes, VolumeBytes, VolumeRead, VolumeWritten, FileFigures};
ghost use Rattle.volume.specs.VolumeLaws.{Room, BodiesRead};

use grid::{Axes, Corners};
use names::{FIGURES_LIMIT, Refusal};
use vectors::Vec3;

// What a file says of its grid.
#[derive(Clone, Copy)]
pub struct FileGrid {
    pub axes: Axes,
    pub corners: Corners,
}

// The axes of a file, the counts of its masks, and how many lights are zero.
#[derive(Clone, Copy)]
pub struct Counts {
    pub axes: Axes,
    pub occupied: u64,
    pub active: u64,
    pub zeros: u64,
}

// The axes and corners of a file. Refused by 12. Writes nothing: whoever is to read the file learns here which lists to lend.
pub fn file_axes(bytes: &[u8]) -> Result<FileGrid, Refusal>
    ensures { FileAxes bytes.now (head_told result) }
{
    if volume_file::inner::is_faulty(bytes) {
        return Err(Refusal::File);
    }
    Ok(FileGrid {
        axes: contents::inner::axes_at(bytes),
        corners: volume_file::inner::corners_at(bytes),
    })
}

// How many bytes a file with these axes has. Refused by 1.
pub fn volume_bytes(axes: Axes) -> Result<usize, Refusal>
    ensures { VolumeBytes axes (needed_told result) }
{
    if limits::inner::bad_axes(axes) {
        return Err(Refusal::Axes);
    }
    Ok(96 + grid::inner::voxel_count(axes) * 70)
}

// Reads a file into the four lent lists, and answers its axes and corners; refused by 12 for any fault in the file, then by 3 for a list of the wrong length.
// Foreign bodies are skipped.
pub fn read_volume(
    bytes: &[u8],
    light: &mut [f32],
    volume: &mut [f32],
    occupied: &mut [u64],
    active: &mut [u64],
) -> Result<FileGrid, Refusal>
    ensures { VolumeRead bytes.now light.old volume.old active.old occupied.old (head_told result) light.new volume.new active.new occupied.new }
{
    let grid = file_axes(bytes)?;
    let n = grid::inner::voxel_count(grid.axes);
    if wrong_lists(n, light.len(), volume.len(), active.len(), occupied.len()) {
        return Err(Refusal::Lengths);
    }
    read_bodies(bytes, n, light, volume, active, occupied);
    Ok(grid)
}

// Writes a file of kinds 1 to 5 over the lent bytes; refused by 1, 2, 3 or 13 as the table says, and then writes nothing.
pub fn write_volume(
    axes: Axes,
    corners: Corners,
    light: &[f32],
    volume: &[f32],
    occupied: &[u64],
    active: &[u64],
    bytes: &mut [u8],
) -> Result<(), Refusal>
    ensures { VolumeWritten axes corners light.now volume.now active.now occupied.now bytes.old (answer_number result) bytes.new }
{
    judge_volume(axes, corners, light, volume, occupied, active, bytes)?;
    let n = grid::inner::voxel_count(axes);
    volume_write::inner::put_file(bytes, axes, n, corners, light, volume, active, occupied);
    Ok(())
}

// The figures that `volstat` prints. Refused by 14 above 65,536 bytes, then by 12 for any fault.
pub fn file_figures(bytes: &[u8]) -> Result<Counts, Refusal>
    ensures { FileFigures bytes.now (figures_told result) }
{
    if FIGURES_LIMIT < bytes.len() {
        return Err(Refusal::LongFile);
    }
    let axes = file_axes(bytes)?.axes;
    let n = grid::inner::voxel_count(axes);
    Ok(Counts {
        axes,
        occupied: count_ones(bytes, volume_file::inner::offset_at(bytes, 3), n),
        active: count_ones(bytes, volume_file::inner::offset_at(bytes, 2), n),
        zeros: count_zeros(bytes, volume_file::inner::offset_at(bytes, 0), n),
    })
}

// ---- the answers as C is told them

// A refusal and zeros, or 0, axes and corners.
#[repr(C)]
#[derive(Clone, Copy)]
pub struct Head {
    pub refusal: u32,
    pub axes: Axes,
    pub corners: Corners,
}

impl From<Result<FileGrid, Refusal>> for Head {
    ghost from_gives = { λ a s. s ≡ head_told a };

    #[tactic(auto, unfolding(crate::specs::Volume::no_head))]
    fn from(answer: Result<FileGrid, Refusal>) -> Head {
        let zero = Vec3 {
            x: 0.0,
            y: 0.0,
            z: 0.0,
        };
        match answer {
            Ok(grid) => Head {
                refusal: 0,
                axes: grid.axes,
                corners: grid.corners,
            },
            Err(refusal) => Head {
                refusal: u32::from(refusal),
                axes: Axes {
                    width: 0,
                    height: 0,
                    depth: 0,
                },
                corners: Corners {
                    min: zero,
                    max: zero,
                },
            },
        }
    }
}

// A refusal and zero, or 0 and the count.
#[repr(C)]
#[derive(Clone, Copy)]
pub struct Needed {
    pub refusal: u32,
    pub bytes: usize,
}

impl From<Result<usize, Refusal>> for Needed {
    ghost from_gives = { λ a s. s ≡ needed_told a };

    fn from(answer: Result<usize, Refusal>) -> Needed {
        match answer {
            Ok(bytes) => Needed { refusal: 0, bytes },
            Err(refusal) => Needed {
                refusal: u32::from(refusal),
                bytes: 0,
            },
        }
    }
}

// A refusal and zeros, or 0, the axes and the counts.
#[repr(C)]
#[derive(Clone, Copy)]
pub struct Figures {
    pub refusal: u32,
    pub width: usize,
    pub height: usize,
    pub depth: usize,
    pub occupied: u64,
    pub active: u64,
    pub zeros: u64,
}

impl From<Result<Counts, Refusal>> for Figures {
    ghost from_gives = { λ a s. s ≡ figures_told a };

    #[tactic(auto, unfolding(crate::specs::Volume::no_figures))]
    fn from(answer: Result<Counts, Refusal>) -> Figures {
        match answer {
            Ok(counts) => Figures {
                refusal: 0,
                width: counts.axes.width,
                height: counts.axes.height,
                depth: counts.axes.depth,
                occupied: counts.occupied,
                active: counts.active,
                zeros: counts.zeros,
            },
            Err(refusal) => Figures {
                refusal: u32::from(refusal),
                width: 0,
                height: 0,
                depth: 0,
                occupied: 0,
                active: 0,
                zeros: 0,
            },
        }
    }
}

// ---- an accepted file

fn read_bodies(
    bytes: &[u8],
    n: usize,
    light: &mut [f32],
    volume: &mut [f32],
    active: &mut [u64],
    occupied: &mut [u64],
)
    requires { Room bytes.now n (length light.old) (length volume.old) (length active.old) (length occupied.old) }
    ensures { BodiesRead bytes.now light.new volume.new active.new occupied.new }
{
    bytes_le::inner::floats_into(bytes, volume_file::inner::offset_at(bytes, 0), light);
    bytes_le::inner::floats_into(bytes, volume_file::inner::offset_at(bytes, 1), volume);
    mask_into(bytes, volume_file::inner::offset_at(bytes, 2), n, active);
    mask_into(bytes, volume_file::inner::offset_at(bytes, 3), n, occupied);
}

// Fills `words` with the mask that has the n bytes from `at` on for its entries.
fn mask_into(bytes: &[u8], at: usize, n: usize, words: &mut [u64])
    requires { (at + n ≤ length bytes.now) × (length words.old ≡ word_count n) }
    ensures { words.new ≡ words_of (bytes_at bytes.now at n) }
{
    words::inner::pack(&bytes[at..at + n], words);
}

// How many of the n bytes from `at` on are 1.
fn count_ones(bytes: &[u8], at: usize, n: usize) -> u64
    requires { at + n ≤ length bytes.now }
    ensures { result ≡ marked_count (bytes_at bytes.now at n) }
{
    marks::inner::count(&bytes[at..at + n])
}

// How many of the n numbers from `at` on are equal to zero, −0 among them.
fn count_zeros(bytes: &[u8], at: usize, n: usize) -> u64
    requires { at + n * 4 ≤ length bytes.now }
    ensures { result ≡ zero_count (floats_at bytes.now at n) }
{
    let mut count = 0;
    for i in 0..n {
        count += u64::from(bytes_le::inner::f32_at(bytes, at + i * 4) == 0.0);
    }
    count
}

// ---- tests

fn judge_volume(
    axes: Axes,
    corners: Corners,
    light: &[f32],
    volume: &[f32],
    occupied: &[u64],
    active: &[u64],
    bytes: &[u8],
) -> Result<(), Refusal>
    ensures { answer_number result ≡ write_refusal axes corners light.now volume.now active.now occupied.now bytes.now }
{
    if limits::inner::bad_axes(axes) {
        return Err(Refusal::Axes);
    }
    if limits::inner::bad_grid(corners, axes) {
        return Err(Refusal::Grid);
    }
    let n = grid::inner::voxel_count(axes);
    let wrong = wrong_lists(n, light.len(), volume.len(), active.len(), occupied.len());
    if wrong | wrong_bytes(n, bytes.len()) {
        return Err(Refusal::Lengths);
    }
    if bad_lists(n, light, volume, active, occupied) {
        return Err(Refusal::Contents);
    }
    Ok(())
}

#[tactic(auto, unfolding(crate::specs::Volume::wrong_volume_lists))]
fn wrong_lists(n: usize, light: usize, volume: usize, active: usize, occupied: usize) -> bool
    requires { n ≤ voxel_limit }
    ensures { result ≡ wrong_volume_lists n light volume active occupied }
{
    let words = (n + 63) / 64;
    (light != n) | (volume != n * 16) | (active != words) | (occupied != words)
}

#[tactic(auto, unfolding(crate::specs::Volume::wrong_bytes))]
fn wrong_bytes(n: usize, bytes: usize) -> bool
    requires { n ≤ voxel_limit }
    ensures { result ≡ wrong_bytes n bytes }
{
    bytes != 96 + n * 70
}

#[tactic(auto, unfolding(crate::specs::Volume::bad_lists))]
fn bad_lists(n: usize, light: &[f32], volume: &[f32], active: &[u64], occupied: &[u64]) -> bool
    requires { (length active.now ≡ word_count n) × (length occupied.now ≡ word_count n) }
    ensures { result ≡ bad_lists n light.now volume.now active.now occupied.now }
{
    let l = limits::inner::bad_lights(light);
    let v = limits::inner::bad_coefficients(volume);
    let a = words::inner::unused_set(active, n);
    let o = words::inner::unused_set(occupied, n);
    l | v | a | o
}
