// Replays the oracle's recorded answers for the lookups: light and coefficients at a position, and one voxel's part with its companion.
#![tactic(auto)]

ghost use Rattle.std.specs.Prelude.{◌*◌, ◌^◌, ◌<◌};

use lookup::{CoefficientsAt, LightAt};
use replay::{Tally, Words, room};
use std::io;

// The three kinds of record.
const LIGHTS: u32 = 8;

const COEFFICIENTS: u32 = 9;

const PART: u32 = 10;

// A position, and the answer to it: a refusal and the light.
fn light_at(w: Words, t: Tally, position: Words, light: &[f32]) -> Tally {
    let axes = replay_values::axes(w.skip(1));
    let corners = replay_values::corners(w.skip(7));
    let r = LightAt::from(lookup::light_at(axes, corners, light, replay_values::vector(position)));
    t.held((r.refusal == position.word(3)) & position.is_number(4, r.light))
}

// Positions one after another, five words each.
fn lights(w: Words, t: Tally) -> Option<Tally> {
    let lists = w.skip(13);
    let mut light = [0.0; room::LIGHT];
    let light = lists.list(0).lend(&mut light)?;
    let positions = lists.after(1);
    let mut tally = t.held(true);
    for i in 0..positions.count(0) {
        tally = light_at(w, tally, positions.skip(1 + i * 5), light);
    }
    Some(tally)
}

// A position, and the answer to it: a refusal and sixteen numbers.
fn coefficients_at(w: Words, t: Tally, position: Words, volume: &[f32]) -> Tally {
    let axes = replay_values::axes(w.skip(1));
    let corners = replay_values::corners(w.skip(7));
    let r = CoefficientsAt::from(lookup::coefficients_at(
        axes,
        corners,
        volume,
        replay_values::vector(position),
    ));
    let numbers = r.numbers;
    let same = numbers
        .iter()
        .enumerate()
        .all(|(i, number)| position.skip(4).is_number(i, *number));
    t.held((r.refusal == position.word(3)) & same)
}

// Positions one after another, twenty words each.
fn coefficients<const ROOM: usize>(w: Words, t: Tally) -> Option<Tally>
    requires { ROOM * 4 < 2 ^ 63 }
{
    let lists = w.skip(13);
    let mut volume = [0.0; ROOM];
    let volume = lists.list(0).lend(&mut volume)?;
    let positions = lists.after(1);
    let mut tally = t.held(true);
    for i in 0..positions.count(0) {
        tally = coefficients_at(w, tally, positions.skip(1 + i * 20), volume);
    }
    Some(tally)
}

// A voxel and which list is asked, and the answer: a refusal and the part.
fn part<const ROOM: usize>(w: Words, t: Tally) -> Option<Tally>
    requires { ROOM * 4 < 2 ^ 63 }
{
    let lists = w.skip(7);
    let mut volume = [0.0; ROOM];
    let mut scratch = [0.0; ROOM];
    let volume = lists.list(0).lend(&mut volume)?;
    let scratch = lists.list(1).lend(&mut scratch)?;
    Some(held_part(w, t.held(true), lists.after(2), volume, scratch))
}

fn held_part(w: Words, t: Tally, asked: Words, volume: &[f32], scratch: &[f32]) -> Tally {
    let axes = replay_values::axes(w.skip(1));
    let index = asked.whole(0);
    let choice = asked.word(2) != 0;
    let refusal = lookup::voxel_refusal(axes, volume, scratch, index, choice);
    let lent = lookup::voxel_part(axes, volume, scratch, index, choice);
    t.held(names::told(refusal) == asked.word(3))
        .held(asked.skip(4).list(0).is(lent))
}

// Most volumes are small, and are given small arrays.
fn record(w: Words, t: Tally) -> Option<Tally> {
    match w.word(0) {
        LIGHTS => lights(w, t),
        COEFFICIENTS if w.skip(13).list(0).length <= room::VOLUME => coefficients::<
            { room::VOLUME },
        >(w, t),
        COEFFICIENTS => coefficients::<{ room::WIDE_VOLUME }>(w, t),
        PART if small(w.skip(7)) => part::<{ room::VOLUME }>(w, t),
        PART => part::<{ room::WIDE_VOLUME }>(w, t),
        _ => None,
    }
}

// Whether neither volume nor scratch is wide.
fn small(lists: Words) -> bool {
    lists.list(0).length <= room::VOLUME && lists.list(1).length <= room::VOLUME
}

fn main(rt: HostRuntime) -> io::Result<()> {
    replay::run(&rt, record)
}
