// A camera frame: the light, or the four coefficients, at each of a list of positions, with the grid's checks made once.
#![tactic(auto)]

ghost use Rattle.std.specs.Prelude.{◌≡◌};
ghost use Rattle.frames.specs.Frames.{refused_first, first_refusal_from, LightsFramed, CoefficientsFramed};

use grid::{Axes, Corners};
use names::Refusal;
use std::error::Error;
use std::fmt;

mod inner;

// Why a frame is refused, and the place of the first position refused. A refusal that no position causes (1, 2 and 3) has place 0.
#[derive(Clone, Copy, Debug, PartialEq, Eq)]
pub struct FirstRefused {
    pub refusal: Refusal,
    pub place: usize,
}

impl From<Refusal> for FirstRefused {
    ghost from_gives = { λ r f. f ≡ refused_first r };

    fn from(refusal: Refusal) -> FirstRefused {
        FirstRefused { refusal, place: 0 }
    }
}

impl fmt::Display for FirstRefused {
    fn fmt<W: fmt::Write>(&self, f: &mut fmt::Formatter<W>) -> fmt::Result {
        write!(f, "{} at {}", self.refusal, self.place)
    }
}

impl Error for FirstRefused {}

// What C is answered: the first refusal's number and its place, or two zeros.
#[repr(C)]
#[derive(Clone, Copy)]
pub struct FirstRefusal {
    pub refusal: u32,
    pub place: usize,
}

impl From<Result<(), FirstRefused>> for FirstRefusal {
    ghost from_gives = { λ a f. f ≡ first_refusal_from a };

    fn from(answer: Result<(), FirstRefused>) -> FirstRefusal {
        match answer {
            Ok(()) => FirstRefusal {
                refusal: 0,
                place: 0,
            },
            Err(first) => FirstRefusal {
                refusal: u32::from(first.refusal),
                place: first.place,
            },
        }
    }
}

// The light at each of the positions, three numbers each, in answers, one number each. Refused: 1, 2, 3, and what `lookup::light_at` refuses at some
// position, the first of them with its place; then nothing is written.
pub fn frame_lights(
    axes: Axes,
    corners: Corners,
    light: &[f32],
    positions: &[f32],
    answers: &mut [f32],
) -> Result<(), FirstRefused>
    ensures { LightsFramed axes corners light.now positions.now answers.old (first_refusal_from result) answers.new }
{
    inner::frame::<f32, 16, 1024>(axes, corners, light, positions, answers)
}

// The four coefficients at each of the positions, three numbers each, in answers, sixteen numbers each. Refused: 1, 2, 3, and what
// `lookup::coefficients_at` refuses at some position, the first of them with its place; then nothing is written.
pub fn frame_coefficients(
    axes: Axes,
    corners: Corners,
    volume: &[f32],
    positions: &[f32],
    answers: &mut [f32],
) -> Result<(), FirstRefused>
    ensures { CoefficientsFramed axes corners volume.now positions.now answers.old (first_refusal_from result) answers.new }
{
    inner::frame::<[f32; 16], 256, 4096>(axes, corners, volume, positions, answers)
}
