// Replays the oracle's recorded answers for the sun pass, by both engines and through a tree: the refusal, the rays, the light, its scratch, and the hit scratch where no ray
// is traced.
#![tactic(auto)]

use grid::{Axes, Corners};
use names::Refusal;
use replay::{Tally, Words, room};
use replay_values::{SceneLists, SceneRoom};
use std::io;
use sun::Sunned;
use vectors::Vec3;

// What a record is of: a pass with hit scratch, one for solid walls, or one through a tree.
#[derive(Clone, Copy, PartialEq, Eq)]
enum Kind {
    Lent,
    Solid,
    Tree,
}

impl TryFrom<u32> for Kind {
    type Error = ();

    fn try_from(number: u32) -> Result<Kind, ()> {
        match number {
            6 => Ok(Kind::Lent),
            12 => Ok(Kind::Solid),
            15 => Ok(Kind::Tree),
            _ => Err(()),
        }
    }
}

// What a pass reads.
#[derive(Clone, Copy)]
struct Given<'a> {
    axes: Axes,
    corners: Corners,
    scene: SceneLists<'a>,
    direction: Vec3,
    active: &'a [u64],
}

// What a pass writes: light and its scratch, and hit scratch.
#[derive(Drop)]
struct Written<'a> {
    light: &'a mut [f32],
    scratch: &'a mut [f32],
    distances: &'a mut [f32],
    places: &'a mut [usize],
}

// Holds the answer, the light and its scratch to the record.
fn held(answer: Words, t: Tally, r: Result<u64, Refusal>, written: &Written) -> Tally {
    let lists = answer.skip(4);
    let r = Sunned::from(r);
    t.held(r.refusal == answer.word(1))
        .held(r.rays == answer.long(2))
        .held(lists.list(0).is(written.light))
        .held(lists.list(1).is(written.scratch))
}

// A pass of the engine for solid walls, over lists as the record lends them.
fn solid(lists: Words, answer: Words, t: Tally, given: Given, written: &mut Written) -> Tally {
    lists.list(5).fill(written.light);
    lists.list(6).fill(written.scratch);
    let scene = given.scene;
    let r = sun::solid_sun(
        given.axes,
        given.corners,
        scene.points,
        scene.uses,
        scene.kinds,
        scene.numbers,
        given.direction,
        given.active,
        written.light,
        written.scratch,
    );
    held(answer, t, r, written)
}

// A pass of the engine with hit scratch, through the scene's tree if it has one, over lists as the record lends them. Hit scratch is held to what it was, where
// the record says so.
fn lent(lists: Words, answer: Words, t: Tally, given: Given, written: &mut Written) -> Tally {
    lists.list(5).fill(written.light);
    lists.list(6).fill(written.scratch);
    lists.list(7).fill(written.distances);
    lists.list(8).fill(written.places);
    let r = traced(given, written);
    let same = lists.list(7).is(written.distances) & lists.list(8).is(written.places);
    held(answer, t, r, written).held_if(answer.word(0) != 0, same)
}

fn traced(given: Given, written: &mut Written) -> Result<u64, Refusal> {
    let scene = given.scene;
    match scene.tree {
        Some(tree) => sun::tree_sun(
            given.axes,
            given.corners,
            scene.points,
            scene.uses,
            scene.kinds,
            scene.numbers,
            tree.boxes,
            tree.nodes,
            tree.order,
            given.direction,
            given.active,
            written.light,
            written.scratch,
            written.distances,
            written.places,
        ),
        None => sun::sun(
            given.axes,
            given.corners,
            scene.points,
            scene.uses,
            scene.kinds,
            scene.numbers,
            given.direction,
            given.active,
            written.light,
            written.scratch,
            written.distances,
            written.places,
        ),
    }
}

// By one engine, or by both where they have one answer.
fn lit(kind: Kind, lists: Words, t: Tally, given: Given, written: &mut Written) -> Tally {
    match kind {
        Kind::Solid => solid(lists, lists.after(9), t, given, written),
        Kind::Tree => lent(lists, lists.after(12), t, given, written),
        Kind::Lent => {
            let answer = lists.after(9);
            let u = lent(lists, answer, t, given, written);
            let scene = given.scene;
            if replay::through_both(
                scene.kinds,
                scene.uses.len(),
                written.distances.len(),
                written.places.len(),
            ) {
                solid(lists, answer, u, given, written)
            } else {
                u
            }
        }
    }
}

// The lists: points, uses, kinds, numbers, active, light, scratch, distances, places, and of a tree boxes, nodes, order. Behind the last stands the answer.
fn record(w: Words, t: Tally) -> Option<Tally> {
    let kind = Kind::try_from(w.word(0)).ok()?;
    let lists = w.skip(16);
    let tree = if kind == Kind::Tree {
        Some(lists.after(9))
    } else {
        None
    };
    let mut scene = SceneRoom::new();
    let mut active = [0; room::MASK];
    let mut light = [0.0; room::LIGHT];
    let mut scratch = [0.0; room::LIGHT];
    let mut distances = [0.0; room::HITS];
    let mut places = [0; room::HITS];
    let given = Given {
        axes: replay_values::axes(w.skip(1)),
        corners: replay_values::corners(w.skip(7)),
        scene: scene.lend(lists, tree)?,
        direction: replay_values::vector(w.skip(13)),
        active: lists.list(4).lend(&mut active)?,
    };
    let mut written = Written {
        light: lists.list(5).fit(&mut light)?,
        scratch: lists.list(6).fit(&mut scratch)?,
        distances: lists.list(7).fit(&mut distances)?,
        places: lists.list(8).fit(&mut places)?,
    };
    Some(lit(kind, lists, t.held(true), given, &mut written))
}

fn main(rt: HostRuntime) -> io::Result<()> {
    replay::run(&rt, record)
}
