// A report under way, wherever its input comes from: what it prints of each file and at its end. Contracts see the league of the files so far.
ghost use Rattle.std.specs.Prelude.{◌≡◌, [], ◌<◌, ◌≤◌, cond, eqb, IfOk, IfSome, MatchResult};
ghost use Rattle.names.specs.Numbers.{length_limit, files_limit};
ghost use Rattle.volume_file.specs.VolumeFile.{light_at};
ghost use Rattle.light_figures.specs.LightFigures.{light_figures};
ghost use Rattle.league_report.specs.declared.League.{League};
ghost use Rattle.league_report.specs.FileLights.{lights_refusal};
ghost use Rattle.league_report.specs.Report.{opening_of, league_of, league_with, LeagueWithin};
ghost use Rattle.league_steps.specs.Steps.{announced};

use league_line::inner::{print_line, print_refusal};
use league_report::League;
use names::Refusal;
use std::io;
use std::marker::Model;

#[derive(Drop)]
pub struct Report {
    league: League,
}

impl Model for Report {
    ghost Value = { League };

    ghost view = { λ r. r.league };

    ghost invariant = { λ r. LeagueWithin r.league };
}

impl Report {
    // No file yet.
    pub fn new() -> Report
        ensures { result ≡ league_of [] }
    {
        Report {
            league: league_report::inner::no_files(),
        }
    }

    // The length of the next file, by the bytes that were read for it; where none is to come, the report ends with its last line or a refusal.
    pub fn begin_file(&self, rt: &impl Print, head: &[u8]) -> io::Result<Option<usize>>
        ensures announced { IfOk result (λ next. next ≡ announced (opening_of self.now.files head.now)) }
        ensures within { IfOk result (λ next. IfSome next (λ long. (self.now.files < files_limit) × (long ≤ length_limit))) }
    {
        let files = self.league.files;
        match league_report::inner::opening(files, head) {
            Ok(Some(long)) => return Ok(Some(long)),
            Ok(None) => print_line(rt, files, self.league.total)?,
            Err(refusal) => print_refusal(rt, u32::from(refusal), files)?,
        }
        Ok(None)
    }

    // Counts a file and prints its line, or ends the report with its refusal; whether it is counted.
    pub fn count_file(&mut self, rt: &impl Print, file: &[u8]) -> io::Result<bool>
        requires { self.old.files < files_limit }
        ensures { MatchResult result
            (λ counted. (counted ≡ eqb (lights_refusal file.now) 0) × (self.new ≡ cond counted (league_with self.old (light_figures (light_at file.now))) self.old))
            (λ _. self.new ≡ self.old) }
    {
        match league_report::file_lights(file) {
            Ok(figures) => {
                let next = league_report::inner::with_file(self.league, figures);
                print_line(rt, next.files, figures)?;
                self.league = next;
                Ok(true)
            }
            Err(refusal) => {
                print_refusal(rt, u32::from(refusal), self.league.files)?;
                Ok(false)
            }
        }
    }

    // Ends the report where the input ends within a file.
    pub fn cut_off(&self, rt: &impl Print) -> io::Result<()> {
        print_refusal(rt, u32::from(Refusal::League), self.league.files)
    }
}
