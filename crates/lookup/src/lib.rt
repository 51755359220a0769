// Lookups (module 8): the light and the four coefficients at a position, and one voxel's sixteen numbers as a part of a lent list.
#![tactic(auto)]

ghost use Rattle.std.specs.Prelude.{◌≡◌};
ghost use Rattle.names.specs.Answers.{answer_number};
ghost use Rattle.lookup.specs.Lookup.{light_from, coefficients_from, part_from, LightLookedUp, CoefficientsLookedUp, PartLent, PartJudged};

use grid::{Axes, Corners};
use names::Refusal;
use vectors::Vec3;

pub mod inner;

// What C is answered: the light at a position, or the number of the refusal and 0.
#[repr(C)]
#[derive(Clone, Copy)]
pub struct LightAt {
    pub refusal: u32,
    pub light: f32,
}

impl From<Result<f32, Refusal>> for LightAt {
    ghost from_gives = { λ a l. l ≡ light_from a };

    fn from(answer: Result<f32, Refusal>) -> LightAt {
        match answer {
            Ok(light) => LightAt { refusal: 0, light },
            Err(refusal) => LightAt {
                refusal: u32::from(refusal),
                light: 0.0,
            },
        }
    }
}

// What C is answered: the four coefficients at a position, x y z w of each in turn, or the number of the refusal and zeros.
#[repr(C)]
#[derive(Clone, Copy)]
pub struct CoefficientsAt {
    pub refusal: u32,
    pub numbers: [f32; 16],
}

impl From<Result<[f32; 16], Refusal>> for CoefficientsAt {
    ghost from_gives = { λ a c. c ≡ coefficients_from a };

    fn from(answer: Result<[f32; 16], Refusal>) -> CoefficientsAt {
        match answer {
            Ok(numbers) => CoefficientsAt {
                refusal: 0,
                numbers,
            },
            Err(refusal) => CoefficientsAt {
                refusal: u32::from(refusal),
                numbers: [0.0; 16],
            },
        }
    }
}

// A place along an axis: its cell, the next one, and how far it lies between them.
#[derive(Clone, Copy)]
pub struct Between {
    pub cell: usize,
    pub next: usize,
    pub fraction: f32,
}

// The indices of the eight cells around a position, 0 the cell and 1 the next along x, y and z in turn, and the three fractions.
#[derive(Clone, Copy)]
pub struct Cells {
    pub c000: usize,
    pub c100: usize,
    pub c010: usize,
    pub c110: usize,
    pub c001: usize,
    pub c101: usize,
    pub c011: usize,
    pub c111: usize,
    pub x: f32,
    pub y: f32,
    pub z: f32,
}

// The light at a position. Refused: 1, 2, 3, 11, and 13 among the eight cells read.
pub fn light_at(axes: Axes, corners: Corners, light: &[f32], position: Vec3) -> Result<f32, Refusal>
    ensures { LightLookedUp axes corners light.now position (light_from result) }
{
    inner::look_up(axes, corners, light, position)
}

// The four coefficients at a position, x y z w of each in turn. Refused: 1, 2, 3, 11, and 13 among all numbers of the eight cells read.
pub fn coefficients_at(
    axes: Axes,
    corners: Corners,
    volume: &[f32],
    position: Vec3,
) -> Result<[f32; 16], Refusal>
    ensures { CoefficientsLookedUp axes corners volume.now position (coefficients_from result) }
{
    inner::look_up(axes, corners, volume, position)
}

// One voxel's sixteen numbers, as a part of the volume or, where unblurred is true, of scratch: no copy. Empty where `voxel_refusal`, on
// the same arguments, refuses.
pub fn voxel_part<'a>(
    axes: Axes,
    volume: &'a [f32],
    scratch: &'a [f32],
    index: usize,
    unblurred: bool,
) -> &'a [f32]
    ensures { PartLent axes volume.now scratch.now index unblurred result.now }
{
    match try_voxel_part(axes, volume, scratch, index, unblurred) {
        Ok(part) => part,
        Err(_) => &volume[..0],
    }
}

// The same part, or why there is none. Refused: 1, 3, 11.
pub fn try_voxel_part<'a>(
    axes: Axes,
    volume: &'a [f32],
    scratch: &'a [f32],
    index: usize,
    unblurred: bool,
) -> Result<&'a [f32], Refusal>
    ensures lent { PartLent axes volume.now scratch.now index unblurred (part_from result) }
    ensures judged { PartJudged axes volume.now scratch.now index unblurred (answer_number result) }
{
    voxel_refusal(axes, volume, scratch, index, unblurred)?;
    let list = if unblurred { scratch } else { volume };
    let at = index * 16;
    Ok(&list[at..at + 16])
}

// Whether `voxel_part` refuses the same arguments.
pub fn voxel_refusal(
    axes: Axes,
    volume: &[f32],
    scratch: &[f32],
    index: usize,
    unblurred: bool,
) -> Result<(), Refusal>
    ensures { PartJudged axes volume.now scratch.now index unblurred (answer_number result) }
{
    if limits::inner::bad_axes(axes) {
        return Err(Refusal::Axes);
    }
    let n = grid::inner::voxel_count(axes);
    if (volume.len() != n * 16) | (scratch.len() != n * 16) {
        return Err(Refusal::Lengths);
    }
    if n <= index {
        return Err(Refusal::Position);
    }
    Ok(())
}
