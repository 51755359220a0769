// Replays the oracle's recorded answers for the two blurs: the refusal, and both lists, written or left alone, bit by bit.
#![tactic(auto)]

ghost use Rattle.std.specs.Prelude.{◌*◌, ◌^◌, ◌<◌};

use replay::{Tally, Words, room};
use std::io;

// The two kinds of record.
const LIGHT: u32 = 4;

const COEFFICIENTS: u32 = 5;

// Blurs lists that there is room for, and holds the refusal and both lists to the record.
fn blurred<const ROOM: usize>(w: Words, t: Tally) -> Option<Tally>
    requires { ROOM * 4 < 2 ^ 63 }
{
    let lists = w.skip(7);
    let mut list = [0.0; ROOM];
    let mut scratch = [0.0; ROOM];
    let list = lists.list(0).lend(&mut list)?;
    let scratch = lists.list(1).lend(&mut scratch)?;
    let axes = replay_values::axes(w.skip(1));
    let answer = match w.word(0) {
        LIGHT => Some(names::told(blurs::light_blur(axes, list, scratch))),
        COEFFICIENTS => Some(names::told(blurs::coefficient_blur(axes, list, scratch))),
        _ => None,
    };
    let expected = lists.after(2);
    let after = expected.skip(1);
    Some(
        t.held(true)
            .held(answer == Some(expected.word(0)))
            .held(after.list(0).is(list))
            .held(after.list(1).is(scratch)),
    )
}

fn record(w: Words, t: Tally) -> Option<Tally> {
    let lists = w.skip(7);
    if lists.list(0).length <= room::VOLUME && lists.list(1).length <= room::VOLUME {
        return blurred::<{ room::VOLUME }>(w, t);
    }
    blurred::<{ room::WIDE_VOLUME }>(w, t)
}

fn main(rt: HostRuntime) -> io::Result<()> {
    replay::run(&rt, record)
}
