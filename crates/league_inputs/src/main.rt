// The league report over many inputs in one run. Standard input holds them one after another, each after its length as a u32; the report of each is printed.
#![tactic(auto)]

ghost use Rattle.std.specs.Prelude.{◌≡◌, OnErr};

use league_steps::inner::Report;
use names::FILES_LIMIT;
use std::io;

// A proved loop has to end, and nothing says that standard input does: no run takes so many turns.
fn main(rt: HostRuntime) -> io::Result<()> {
    let mut space = [0u8; 69632];
    for _ in 0..u64::MAX {
        if !one_input(&rt, &mut space)? {
            break;
        }
    }
    Ok(())
}

// Reads the next input, and reports on it; false where there is none, or it ends within.
fn one_input(rt: &(impl Input + Print), space: &mut [u8]) -> io::Result<bool> {
    let mut head = [0u8; 4];
    if console::read_full(rt, &mut head)? < 4 {
        return Ok(false);
    }
    let long = u32::from_le_bytes(head) as usize;
    let Some(input) = space.get_mut(..long) else {
        return Ok(false);
    };
    if console::read_full(rt, input)? < long {
        return Ok(false);
    }
    print_report(rt, input)?;
    Ok(true)
}

fn print_report(rt: &impl Print, input: &[u8]) -> io::Result<()> {
    let mut report = Report::new();
    let mut rest = input;
    // A turn for each file that may come, and one in which the input ends or is refused.
    for _ in 0..=FILES_LIMIT {
        let Some(next) = turn(rt, &mut report, rest)? else {
            break;
        };
        rest = next;
    }
    Ok(())
}

// Takes the length at the start of `input`, and the file after it; what is left then, or nothing where the report has ended.
fn turn<'a>(rt: &impl Print, report: &mut Report, input: &'a [u8]) -> io::Result<Option<&'a [u8]>>
    ensures { OnErr result (report.new ≡ report.old) }
{
    let (head, rest) = input.split_at(input.len().min(4));
    let Some(long) = report.begin_file(rt, head)? else {
        return Ok(None);
    };
    let Some((file, next)) = rest.split_at_checked(long) else {
        report.cut_off(rt)?;
        return Ok(None);
    };
    let counted = report.count_file(rt, file)?;
    Ok(counted.then_some(next))
}
