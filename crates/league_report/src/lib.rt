// The league report: what one volume file adds to it, and the steps of the whole.
#![tactic(auto)]

ghost use Rattle.std.specs.Prelude.{◌≡◌, ◌+◌, ◌*◌, ◌≤◌, length};
ghost use Rattle.lists.specs.Some.{some};
ghost use Rattle.bytes_le.specs.Bytes.{floats_at};
ghost use Rattle.light_units.specs.Units.{light_outside};
ghost use Rattle.league_report.specs.FileLights.{lights_told, LightsOfFile};

use light_figures::LightFigures;
use names::{LENGTH_LIMIT, Refusal};

pub mod inner;

// How many files have been read, and the figures of all their lights put together.
#[repr(C)]
#[derive(Clone, Copy)]
pub struct League {
    pub files: u64,
    pub total: LightFigures,
}

// The figures that `league` prints of a file. Refused by 18 above 65,536 bytes, then by 12 for any fault, then by 18 for a light outside 0..1.
pub fn file_lights(bytes: &[u8]) -> Result<LightFigures, Refusal>
    ensures { LightsOfFile bytes.now (lights_told result) }
{
    if LENGTH_LIMIT < bytes.len() {
        return Err(Refusal::League);
    }
    if volume_file::inner::is_faulty(bytes) {
        return Err(Refusal::File);
    }
    let n = grid::inner::voxel_count(contents::inner::axes_at(bytes));
    let at = volume_file::inner::offset_at(bytes, 0);
    if any_outside(bytes, at, n) {
        return Err(Refusal::League);
    }
    Ok(light_figures::inner::counted(bytes, at, n))
}

// Whether one of the n lights from byte `at` on lies outside 0..1. It goes to the end, so that several are tested at once.
fn any_outside(bytes: &[u8], at: usize, n: usize) -> bool
    requires { at + n * 4 ≤ length bytes.now }
    ensures { result ≡ some light_outside (floats_at bytes.now at n) }
{
    let mut any = false;
    for i in 0..n {
        any |= light_units::inner::is_outside(bytes_le::inner::f32_at(bytes, at + i * 4));
    }
    any
}

// ---- the answer in one struct

// A refusal and the figures of no light, or 0 and the figures.
#[repr(C)]
#[derive(Clone, Copy)]
pub struct FileLights {
    pub refusal: u32,
    pub figures: LightFigures,
}

impl From<Result<LightFigures, Refusal>> for FileLights {
    ghost from_gives = { λ a s. s ≡ lights_told a };

    #[tactic(auto, unfolding(crate::specs::FileLights::no_lights))]
    fn from(answer: Result<LightFigures, Refusal>) -> FileLights {
        match answer {
            Ok(figures) => FileLights {
                refusal: 0,
                figures,
            },
            Err(refusal) => FileLights {
                refusal: u32::from(refusal),
                figures: light_figures::inner::none(),
            },
        }
    }
}
