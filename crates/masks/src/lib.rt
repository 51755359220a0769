// The occupied and the active mask of a scene's triangles.
#![tactic(auto)]

ghost use Rattle.std.specs.Prelude.{◌≡◌};
ghost use Rattle.names.specs.Answers.{answer_number};
ghost use Rattle.grid.specs.Grid.{AxesWithin};
ghost use Rattle.masks.specs.Masks.{wrong_masks, masks_refusal, marked_from, MasksFilled};

use grid::{Axes, Corners};
use names::Refusal;

// How many voxels are occupied and how many active.
#[derive(Clone, Copy)]
pub struct MaskCounts {
    pub occupied: u64,
    pub active: u64,
}

// What C is answered: a refusal, or 0 and the counts.
#[repr(C)]
#[derive(Clone, Copy)]
pub struct Marked {
    pub refusal: u32,
    pub occupied: u64,
    pub active: u64,
}

impl From<Result<MaskCounts, Refusal>> for Marked {
    ghost from_gives = { λ a m. m ≡ marked_from a };

    fn from(answer: Result<MaskCounts, Refusal>) -> Marked {
        match answer {
            Ok(counts) => Marked {
                refusal: 0,
                occupied: counts.occupied,
                active: counts.active,
            },
            Err(refusal) => Marked {
                refusal: u32::from(refusal),
                occupied: 0,
                active: 0,
            },
        }
    }
}

// Fills both masks, voxel i in bit i % 64 of word i / 64 and every other bit 0 whatever stood there, from triangles of nine numbers each, and counts
// the marked voxels of both.
// Refused by 1, 2, 3, 4 or 5, and then writes nothing.
pub fn masks(
    axes: Axes,
    corners: Corners,
    points: &[f32],
    occupied: &mut [u64],
    active: &mut [u64],
) -> Result<MaskCounts, Refusal>
    ensures { MasksFilled axes corners points.now occupied.old active.old (marked_from result) occupied.new active.new }
{
    judge(axes, corners, points, occupied, active)?;
    occupy::inner::occupy(axes, corners, points, occupied);
    dilate::inner::dilate(axes, occupied, active);
    let n = grid::inner::voxel_count(axes);
    Ok(MaskCounts {
        occupied: words::inner::count(occupied, n),
        active: words::inner::count(active, n),
    })
}

fn judge(
    axes: Axes,
    corners: Corners,
    points: &[f32],
    occupied: &[u64],
    active: &[u64],
) -> Result<(), Refusal>
    ensures { answer_number result ≡ masks_refusal axes corners points.now occupied.now active.now }
{
    if limits::inner::bad_axes(axes) {
        return Err(Refusal::Axes);
    }
    if limits::inner::bad_grid(corners, axes) {
        return Err(Refusal::Grid);
    }
    if wrong_masks(axes, points, occupied, active) {
        return Err(Refusal::Lengths);
    }
    if limits::inner::too_many(points.len() / 9, 0) {
        return Err(Refusal::TooMany);
    }
    if limits::inner::bad_points(points) {
        return Err(Refusal::Points);
    }
    Ok(())
}

// Whether the points are no multiple of nine, or a mask has not exactly as many words as its voxels take.
fn wrong_masks(axes: Axes, points: &[f32], occupied: &[u64], active: &[u64]) -> bool
    requires { AxesWithin axes }
    ensures { result ≡ wrong_masks axes points.now occupied.now active.now }
{
    let count = (grid::inner::voxel_count(axes) + 63) / 64;
    (points.len() % 9 != 0) | (occupied.len() != count) | (active.len() != count)
}
