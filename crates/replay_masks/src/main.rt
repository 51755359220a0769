// Replays the oracle's recorded answers for the masks: the refusal, both counts, and both masks, written or left alone.
#![tactic(auto)]

use masks::Marked;
use replay::{Tally, Words, room};
use std::io;

const MASKS: u32 = 3;

// Holds the answer and both masks to the record.
fn held(w: Words, t: Tally, r: Marked, occupied: &[u64], active: &[u64]) -> Tally {
    let masks = w.skip(3);
    t.held(r.refusal == w.word(0))
        .held(r.occupied == u64::from(w.word(1)))
        .held(r.active == u64::from(w.word(2)))
        .held(masks.list(0).is(occupied))
        .held(masks.list(1).is(active))
}

fn record(w: Words, t: Tally) -> Option<Tally> {
    if w.word(0) != MASKS {
        return None;
    }
    let lists = w.skip(13);
    let mut points = [0.0; room::POINTS];
    let mut occupied = [0; room::MASK];
    let mut active = [0; room::MASK];
    let points = lists.list(0).lend(&mut points)?;
    let occupied = lists.list(1).lend(&mut occupied)?;
    let active = lists.list(2).lend(&mut active)?;
    let axes = replay_values::axes(w.skip(1));
    let corners = replay_values::corners(w.skip(7));
    let r = Marked::from(masks::masks(axes, corners, points, occupied, active));
    Some(held(lists.after(3), t.held(true), r, occupied, active))
}

fn main(rt: HostRuntime) -> io::Result<()> {
    replay::run(&rt, record)
}
