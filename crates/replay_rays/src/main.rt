// Replays the oracle's recorded answers for the public ray calls: the test of one triangle, the nearest hit and the transmittance by both engines and
// through a tree, each number bit by bit, and the hit scratch where a refusal leaves it alone; and for the builder of a tree: its answer and its three
// lists, bit by bit.
#![tactic(auto)]

use rays::{Found, Met, Transmitted};
use replay::{Tally, Words, room};
use replay_values::{SceneLists, SceneRoom};
use std::io;
use tree_build::TreeBuilt;

// The four kinds of record: one triangle, rays over a scene, rays through a tree, and the builder.
const TRIANGLE: u32 = 1;

const SCENE: u32 = 2;

const TREE: u32 = 14;

const BUILD: u32 = 17;

// What is asked along a ray, but for how much light passes.
const NEAREST: u32 = 0;

const SOLID: u32 = 2;

// Whether a hit's numbers are the recorded ones: distance, u, v, and 1 for the front, 0 for the back and where nothing is met.
fn is_hit(w: Words, d: f32, u: f32, v: f32, front: bool) -> bool {
    w.is_number(0, d) & w.is_number(1, u) & w.is_number(2, v) & (w.word(3) == u32::from(front))
}

// The answer is six words: refusal, hit, and the hit's numbers.
fn triangle(w: Words, t: Tally) -> Tally {
    let met = rays::meet(
        replay_values::ray(w.skip(10)),
        replay_values::triangle(w.skip(1)),
    );
    let (refusal, hit, d, u, v, front) = match met {
        Met::Refused(k) => (k, 0, 0.0, 0.0, 0.0, false),
        Met::Miss => (0, 0, 0.0, 0.0, 0.0, false),
        Met::Hit(d, u, v, front) => (0, 1, d, u, v, front),
    };
    let answer = w.skip(18);
    t.held(
        (answer.word(0) == refusal)
            & (answer.word(1) == hit)
            & is_hit(answer.skip(2), d, u, v, front),
    )
}

// ---- rays over a scene

// Hit scratch.
#[derive(Drop)]
struct Hits<'a> {
    distances: &'a mut [f32],
    places: &'a mut [usize],
}

// A ray is what is asked, its eight numbers, and the answer.
fn ray(asked: Words) -> vectors::Ray {
    replay_values::ray(asked.skip(1))
}

// The nearest hit, through the scene's tree if it has one.
fn found(asked: Words, scene: SceneLists) -> Found {
    let ray = ray(asked);
    match scene.tree {
        Some(tree) => rays::tree_nearest(
            scene.points,
            scene.uses,
            scene.kinds,
            scene.numbers,
            tree.boxes,
            tree.nodes,
            tree.order,
            ray,
        ),
        None => rays::nearest(scene.points, scene.uses, scene.kinds, scene.numbers, ray),
    }
}

// The answer is seven words: refusal, hit, place, and the hit's numbers.
fn nearest(asked: Words, t: Tally, scene: SceneLists) -> Tally {
    let (refusal, hit, place, d, u, v, front) = match found(asked, scene) {
        Found::Refused(k) => (k, 0, 0, 0.0, 0.0, 0.0, false),
        Found::Nothing => (0, 0, 0, 0.0, 0.0, 0.0, false),
        Found::Hit(i, d, u, v, front) => (0, 1, i, d, u, v, front),
    };
    let answer = asked.skip(9);
    t.held(
        (answer.word(0) == refusal)
            & (answer.word(1) == hit)
            & (answer.count(2) == place)
            & is_hit(answer.skip(3), d, u, v, front),
    )
}

// The transmittance, through the scene's tree if it has one.
fn through(asked: Words, scene: SceneLists, hits: &mut Hits) -> Transmitted {
    let ray = ray(asked);
    match scene.tree {
        Some(tree) => rays::tree_transmittance(
            scene.points,
            scene.uses,
            scene.kinds,
            scene.numbers,
            tree.boxes,
            tree.nodes,
            tree.order,
            ray,
            hits.distances,
            hits.places,
        ),
        None => rays::transmittance(
            scene.points,
            scene.uses,
            scene.kinds,
            scene.numbers,
            ray,
            hits.distances,
            hits.places,
        ),
    }
}

// Through the engine with hit scratch, whose lists begin at `lists`.
fn lent(lists: Words, asked: Words, t: Tally, scene: SceneLists, hits: &mut Hits) -> Tally {
    lists.list(0).fill(hits.distances);
    lists.list(1).fill(hits.places);
    let r = through(asked, scene, hits);
    let same = lists.list(0).is(hits.distances) & lists.list(1).is(hits.places);
    passed(asked, t, r).held_if(r.refusal != 0, same)
}

// Through the engine for solid walls.
fn solid(asked: Words, t: Tally, scene: SceneLists) -> Tally {
    let r = rays::solid_transmittance(
        scene.points,
        scene.uses,
        scene.kinds,
        scene.numbers,
        ray(asked),
    );
    passed(asked, t, r)
}

// The answer is two words: refusal, value.
fn passed(asked: Words, t: Tally, r: Transmitted) -> Tally {
    t.held((asked.word(9) == r.refusal) & asked.is_number(10, r.transmittance))
}

// By one engine, or by both where they have one answer.
fn transmittance(
    lists: Words,
    asked: Words,
    t: Tally,
    scene: SceneLists,
    hits: &mut Hits,
) -> Tally {
    let u = lent(lists, asked, t, scene, hits);
    let both = replay::through_both(
        scene.kinds,
        scene.uses.len(),
        hits.distances.len(),
        hits.places.len(),
    );
    if scene.tree.is_none() && both {
        return solid(asked, u, scene);
    }
    u
}

// The lists: points, uses, kinds, numbers, distances, places, and of a tree boxes, nodes, order. Behind the last stand the rays, one after another, sixteen words each.
fn scene(lists: Words, tree: Option<Words>, rays: Words, t: Tally) -> Option<Tally> {
    let mut scene = SceneRoom::new();
    let mut distances = [0.0; room::HITS];
    let mut places = [0; room::HITS];
    let scene = scene.lend(lists, tree)?;
    let lists = lists.after(4);
    let mut hits = Hits {
        distances: lists.list(0).fit(&mut distances)?,
        places: lists.list(1).fit(&mut places)?,
    };
    let mut tally = t.held(true);
    for i in 0..rays.count(0) {
        let asked = rays.skip(1 + i * 16);
        tally = match asked.word(0) {
            NEAREST => nearest(asked, tally, scene),
            SOLID => solid(asked, tally, scene),
            _ => transmittance(lists, asked, tally, scene, &mut hits),
        };
    }
    Some(tally)
}

// ---- the builder

// The lists: points, boxes, nodes, order. The answer is three words, refusal, boxes, places, and the three lists that were lent.
fn build(lists: Words, t: Tally) -> Option<Tally> {
    let mut points = [0.0; room::POINTS];
    let mut boxes = [0.0; room::BOXES];
    let mut nodes = [0; room::NODES];
    let mut order = [0; room::ORDER];
    let points = lists.list(0).lend(&mut points)?;
    let boxes = lists.list(1).lend(&mut boxes)?;
    let nodes = lists.list(2).lend(&mut nodes)?;
    let order = lists.list(3).lend(&mut order)?;
    let r = TreeBuilt::from(tree_build::build_tree(points, boxes, nodes, order));
    let answer = lists.after(4);
    let after = answer.skip(3);
    Some(
        t.held(true)
            .held(r.refusal == answer.word(0))
            .held(r.boxes == answer.count(1))
            .held(r.places == answer.count(2))
            .held(after.list(0).is(boxes))
            .held(after.list(1).is(nodes))
            .held(after.list(2).is(order)),
    )
}

// ---- the run

fn record(w: Words, t: Tally) -> Option<Tally> {
    let lists = w.skip(1);
    match w.word(0) {
        TRIANGLE => Some(triangle(w, t)),
        SCENE => scene(lists, None, lists.after(6), t),
        TREE => scene(lists, Some(lists.after(6)), lists.after(9), t),
        BUILD => build(lists, t),
        _ => None,
    }
}

fn main(rt: HostRuntime) -> io::Result<()> {
    replay::run(&rt, record)
}
