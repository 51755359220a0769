// Replays the oracle's recorded answers for the bake, by both engines and through a tree. A record of calls, whole and interrupted: at each call the refusal, the next voxel, the rays so far,
// the call's rays, the volume and its scratch bit by bit, and the hit scratch where no ray is traced. A record of rays: each ray that the bake of a small scene fires, and their
// number, which is also the one that the bake reports.
#![tactic(auto)]

ghost use Rattle.std.specs.Prelude.{◌*◌, ◌^◌, ◌<◌};

use bake::{Advance, BakeAnswer};
use grid::{Axes, Corners};
use limits::{Ambient, Light};
use names::Refusal;
use replay::{Tally, Words, room};
use replay_values::{SceneLists, SceneRoom};
use spread::Progress;
use std::io;

// What a record is of: calls with hit scratch, for solid walls or through a tree, or the rays that a bake fires.
#[derive(Clone, Copy, PartialEq, Eq)]
enum Kind {
    Calls,
    Solid,
    Tree,
    Rays,
}

impl TryFrom<u32> for Kind {
    type Error = ();

    fn try_from(number: u32) -> Result<Kind, ()> {
        match number {
            7 => Ok(Kind::Calls),
            11 => Ok(Kind::Rays),
            13 => Ok(Kind::Solid),
            16 => Ok(Kind::Tree),
            _ => Err(()),
        }
    }
}

// Room for the sky, and for lamps: thirteen, which is more than any call accepts.
const SKY: usize = 1740;

const LAMPS: usize = 80;

// A record, its lists, and behind the last of these its calls or its rays.
#[derive(Clone, Copy)]
struct Case<'a> {
    kind: Kind,
    values: Words<'a>,
    lists: Words<'a>,
    asked: Words<'a>,
}

// What a call reads.
#[derive(Clone, Copy)]
struct Given<'a> {
    axes: Axes,
    corners: Corners,
    scene: SceneLists<'a>,
    sunlight: Light,
    ambient: Ambient,
    sky: &'a [f32],
    lamps: &'a [f32],
    active: &'a [u64],
    lights: &'a [f32],
}

// What a call writes: the volume and its scratch, and hit scratch.
#[derive(Drop)]
struct Written<'a> {
    volume: &'a mut [f32],
    scratch: &'a mut [f32],
    distances: &'a mut [f32],
    places: &'a mut [usize],
}

// The next voxel and the rays so far.
fn progress(w: Words) -> Progress {
    Progress {
        next: w.whole(0),
        rays: w.long(2),
    }
}

// A call, through the scene's tree if it has one.
fn lent(
    given: Given,
    begun: Progress,
    allowance: u64,
    written: &mut Written,
) -> Result<Advance, Refusal> {
    let scene = given.scene;
    match scene.tree {
        Some(tree) => bake::tree_bake(
            given.axes,
            given.corners,
            scene.points,
            scene.uses,
            scene.kinds,
            scene.numbers,
            tree.boxes,
            tree.nodes,
            tree.order,
            given.sunlight,
            given.ambient,
            given.sky,
            given.lamps,
            given.active,
            given.lights,
            written.volume,
            written.scratch,
            written.distances,
            written.places,
            begun,
            allowance,
        ),
        None => bake::bake(
            given.axes,
            given.corners,
            scene.points,
            scene.uses,
            scene.kinds,
            scene.numbers,
            given.sunlight,
            given.ambient,
            given.sky,
            given.lamps,
            given.active,
            given.lights,
            written.volume,
            written.scratch,
            written.distances,
            written.places,
            begun,
            allowance,
        ),
    }
}

// A call by the one engine or the other.
fn answered(
    solid: bool,
    given: Given,
    begun: Progress,
    allowance: u64,
    written: &mut Written,
) -> BakeAnswer {
    if !solid {
        return BakeAnswer::of(lent(given, begun, allowance, written), begun);
    }
    let scene = given.scene;
    let answer = bake::solid_bake(
        given.axes,
        given.corners,
        scene.points,
        scene.uses,
        scene.kinds,
        scene.numbers,
        given.sunlight,
        given.ambient,
        given.sky,
        given.lamps,
        given.active,
        given.lights,
        written.volume,
        written.scratch,
        begun,
        allowance,
    );
    BakeAnswer::of(answer, begun)
}

// A call, with hit scratch as the record lends it, whose lists begin at `hits`. A call is its progress, its allowance, whether hit scratch is held, then refusal, progress, rays, and the two
// lists of the volume.
fn called(
    solid: bool,
    hits: Words,
    call: Words,
    t: Tally,
    given: Given,
    written: &mut Written,
) -> Tally {
    hits.list(0).fill(written.distances);
    hits.list(1).fill(written.places);
    let r = answered(solid, given, progress(call), call.long(4), written);
    let left = progress(call.skip(8));
    let lists = call.skip(14);
    let unhit = hits.list(0).is(written.distances) & hits.list(1).is(written.places);
    t.held(r.refusal == call.word(7))
        .held(r.progress.next == left.next)
        .held(r.progress.rays == left.rays)
        .held(r.rays == call.long(12))
        .held(lists.list(0).is(written.volume))
        .held(lists.list(1).is(written.scratch))
        .held_if(!solid & (call.word(6) != 0), unhit)
}

// The calls, one after another, over the same volume and scratch.
fn calls(solid: bool, case: Case, t: Tally, given: Given, written: &mut Written) -> Tally {
    let hits = case.lists.after(10);
    let mut tally = t;
    let mut call = case.asked.skip(1);
    for _ in 0..case.asked.count(0) {
        tally = called(solid, hits, call, tally, given, written);
        call = call.skip(14).after(2);
    }
    tally
}

// The rays that a bake fires, one by one as the port's own functions make them, once, since both engines make the same; and their number, which the bake reports too, by the one engine or
// the other.
fn rays(solid: bool, case: Case, t: Tally, given: Given, written: &mut Written) -> Tally {
    let listed = if solid {
        t
    } else {
        replay_fired::listed(
            case.values,
            case.asked,
            t,
            given.scene,
            given.lamps,
            given.active,
        )
    };
    let none = Progress { next: 0, rays: 0 };
    let r = answered(solid, given, none, u64::MAX, written);
    let n = u64::from(case.asked.word(0));
    listed.held((r.refusal == 0) & (r.rays == n) & (r.progress.rays == n))
}

// What a record asks by the one engine or the other, over volume and scratch as the record lends them.
fn baked(solid: bool, case: Case, t: Tally, given: Given, written: &mut Written) -> Tally {
    case.lists.list(8).fill(written.volume);
    case.lists.list(9).fill(written.scratch);
    if case.kind == Kind::Rays {
        return rays(solid, case, t, given, written);
    }
    calls(solid, case, t, given, written)
}

// By one engine, or by both where they have one answer.
fn both(case: Case, t: Tally, given: Given, written: &mut Written) -> Tally {
    let solid = case.kind == Kind::Solid;
    let u = baked(solid, case, t, given, written);
    let scene = given.scene;
    let opaque = replay::through_both(
        scene.kinds,
        scene.uses.len(),
        written.distances.len(),
        written.places.len(),
    );
    if !solid && scene.tree.is_none() && opaque {
        return baked(true, case, u, given, written);
    }
    u
}

// The lists: points, uses, kinds, numbers, sky, lamps, active, light, volume, scratch, distances, places, and of a tree boxes, nodes, order.
fn sized<const ROOM: usize>(case: Case, t: Tally) -> Option<Tally>
    requires { ROOM * 4 < 2 ^ 63 }
{
    // the arrays first: what stands before them has them cleared a second time
    let mut scene = SceneRoom::new();
    let mut sky = [0.0; SKY];
    let mut lamps = [0.0; LAMPS];
    let mut active = [0; room::MASK];
    let mut lights = [0.0; room::LIGHT];
    let mut volume = [0.0; ROOM];
    let mut scratch = [0.0; ROOM];
    let mut distances = [0.0; room::HITS];
    let mut places = [0; room::HITS];
    let values = case.values;
    let lists = case.lists;
    let tree = if case.kind == Kind::Tree {
        Some(lists.after(12))
    } else {
        None
    };
    let given = Given {
        axes: replay_values::axes(values.skip(1)),
        corners: replay_values::corners(values.skip(7)),
        scene: scene.lend(lists, tree)?,
        sunlight: replay_values::light(values.skip(13)),
        ambient: replay_values::ambient(values.skip(19)),
        sky: lists.list(4).lend(&mut sky)?,
        lamps: lists.list(5).lend(&mut lamps)?,
        active: lists.list(6).lend(&mut active)?,
        lights: lists.list(7).lend(&mut lights)?,
    };
    let mut written = Written {
        volume: lists.list(8).fit(&mut volume)?,
        scratch: lists.list(9).fit(&mut scratch)?,
        distances: lists.list(10).fit(&mut distances)?,
        places: lists.list(11).fit(&mut places)?,
    };
    Some(both(case, t.held(true), given, &mut written))
}

// Most volumes are small, and are given small arrays.
fn record(w: Words, t: Tally) -> Option<Tally> {
    let kind = Kind::try_from(w.word(0)).ok()?;
    let lists = w.skip(31);
    let asked = if kind == Kind::Tree {
        lists.after(15)
    } else {
        lists.after(12)
    };
    let case = Case {
        kind,
        values: w,
        lists,
        asked,
    };
    if lists.list(8).length <= room::VOLUME && lists.list(9).length <= room::VOLUME {
        return sized::<{ room::VOLUME }>(case, t);
    }
    sized::<{ room::WIDE_VOLUME }>(case, t)
}

fn main(rt: HostRuntime) -> io::Result<()> {
    replay::run(&rt, record)
}
