// Reads volume files one after another on standard input, each after its length as a u32, and prints the league report: a line for each file and one over all,
// or a refusal instead of that one.
#![tactic(auto)]

ghost use Rattle.std.specs.Prelude.{◌≡◌, OnErr};

use league_steps::inner::Report;
use names::{FILES_LIMIT, LENGTH_LIMIT};
use std::io;

fn main(rt: HostRuntime) -> io::Result<()> {
    let mut report = Report::new();
    let mut space = [0u8; LENGTH_LIMIT];
    // A turn for each file that may come, and one in which the input ends or is refused.
    for _ in 0..=FILES_LIMIT {
        if !turn(&rt, &mut report, &mut space)? {
            break;
        }
    }
    Ok(())
}

// Reads a length, and the file after it; false where the report has ended.
fn turn(
    rt: &(impl Input + Print),
    report: &mut Report,
    space: &mut [u8; LENGTH_LIMIT],
) -> io::Result<bool>
    ensures { OnErr result (report.new ≡ report.old) }
{
    let mut head = [0u8; 4];
    let got = console::read_full(rt, &mut head)?;
    let Some(long) = report.begin_file(rt, &head[..got])? else {
        return Ok(false);
    };
    let file = &mut space[..long];
    if console::read_full(rt, file)? < long {
        report.cut_off(rt)?;
        return Ok(false);
    }
    report.count_file(rt, file)
}
