// The text of a file's figures, of those of all files, and of a refusal. A line is made whole and written at once.
ghost use Rattle.std.specs.Prelude.{◌≡◌, ◌++◌, ◌+◌, ◌*◌, ◌≤◌, length, take};
ghost use Rattle.names.specs.Numbers.{files_limit};
ghost use Rattle.league_report.specs.Report.{Line};
ghost use Rattle.league_line.specs.Text.{decimal_of, spaced, text_of};

use light_figures::LightFigures;
use std::io;

// `first`, then the figures, single spaces between.
pub fn print_line(rt: &impl Print, first: u64, figures: LightFigures) -> io::Result<()> {
    let mut line = [0u8; 448];
    let long = put_figures(&mut line, first, figures);
    rt.write_all(&line[..long])
}

// The number, and the place of the file after so many.
pub fn print_refusal(rt: &impl Print, refusal: u32, files: u64) -> io::Result<()>
    requires { files ≤ files_limit }
{
    let mut line = [0u8; 64];
    let long = put_refusal(&mut line, refusal as u64, files + 1);
    rt.write_all(&line[..long])
}

// ---- lines

fn put_figures(line: &mut [u8], first: u64, figures: LightFigures) -> usize
    requires { 441 ≤ length line.old }
    ensures { (take result line.new ≡ text_of (Line.figures first figures)) × (result ≤ 441) }
{
    let at = put_decimal(line, 0, first);
    let at = put_numbers(
        line,
        at,
        &[figures.voxels, figures.sum, figures.lowest, figures.highest],
    );
    let end = put_numbers(line, at, &figures.bands);
    line[end] = b'\n';
    end + 1
}

#[tactic(auto, using(std::proofs::lemmas::Slice::overwrites), unfolding(crate::specs::Text::text_of))]
fn put_refusal(line: &mut [u8], refusal: u64, place: u64) -> usize
    requires { 50 ≤ length line.old }
    ensures { (take result line.new ≡ text_of (Line.refused refusal place)) × (result ≤ 50) }
{
    line[..7].copy_from_slice(b"refused");
    let end = put_numbers(line, 7, &[refusal, place]);
    line[end] = b'\n';
    end + 1
}

// ---- numbers

// Each number after a space, from byte `at` on; where they end.
#[tactic(auto, unfolding(crate::specs::Text::spaced))]
fn put_numbers(line: &mut [u8], at: usize, numbers: &[u64]) -> usize
    requires { at + length numbers.now * 21 ≤ length line.old }
    ensures { (take result line.new ≡ take at line.old ++ spaced numbers.now) × (result ≤ at + length numbers.now * 21) }
{
    let mut end = at;
    for n in numbers {
        line[end] = b' ';
        end = put_decimal(line, end + 1, *n);
    }
    end
}

// The decimal digits from byte `at` on; where they end.
#[tactic(auto, using(std::proofs::lemmas::Slice::overwrites, crate::specs::TextLaws::fewest_most, crate::specs::TextLaws::decimal_is))]
fn put_decimal(line: &mut [u8], at: usize, n: u64) -> usize
    requires { at + 20 ≤ length line.old }
    ensures { (take result line.new ≡ take at line.old ++ decimal_of n) × (result ≤ at + 20) }
{
    let mut text = [0u8; 20];
    let k = console::decimal(n, &mut text);
    line[at..at + k].copy_from_slice(&text[..k]);
    at + k
}
