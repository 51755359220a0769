// The steps of the report: what stands before a file, and one file more.
ghost use Rattle.std.specs.Prelude.{◌≡◌, [], ◌<◌, ◌≤◌};
ghost use Rattle.names.specs.Numbers.{length_limit, files_limit};
ghost use Rattle.light_figures.specs.LightFigures.{FiguresSized};
ghost use Rattle.league_report.specs.Report.{league_of, league_with, LeagueWithin, opening_of};

use super::League;
use light_figures::LightFigures;
use names::{FILES_LIMIT, LENGTH_LIMIT, Refusal};

// No file yet.
pub fn no_files() -> League
    ensures { (result ≡ league_of []) × LeagueWithin result }
{
    League {
        files: 0,
        total: light_figures::inner::none(),
    }
}

// The length that stands before the next file, by the bytes that were read for it: four, or fewer where the input ends, and none where no file is to come.
// Refused by 18.
#[tactic(auto, unfolding(crate::specs::Report::opening_of))]
pub fn opening(files: u64, head: &[u8]) -> Result<Option<usize>, Refusal>
    ensures { result ≡ opening_of files head.now }
{
    if head.is_empty() {
        return Ok(None);
    }
    if FILES_LIMIT <= files || head.len() < 4 {
        return Err(Refusal::League);
    }
    let long = bytes_le::inner::u32_at(head, 0) as usize;
    if LENGTH_LIMIT < long {
        return Err(Refusal::League);
    }
    Ok(Some(long))
}

// One file more, of these figures.
pub fn with_file(league: League, figures: LightFigures) -> League
    requires { LeagueWithin league × (league.files < files_limit) × FiguresSized figures × (figures.voxels ≤ length_limit) }
    ensures { (result ≡ league_with league figures) × LeagueWithin result }
{
    League {
        files: league.files + 1,
        total: light_figures::inner::joined(league.total, figures),
    }
}
