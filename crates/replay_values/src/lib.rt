// Values of the port's own types out of a record.
#![tactic(auto)]

use grid::{Axes, Corners};
use limits::{Ambient, Light};
use replay::{Words, room};
use vectors::{Ray, Triangle, Vec3};

// Three numbers.
pub fn vector(w: Words) -> Vec3 {
    Vec3 {
        x: w.number(0),
        y: w.number(1),
        z: w.number(2),
    }
}

// Nine numbers.
pub fn triangle(w: Words) -> Triangle {
    Triangle {
        p0: vector(w),
        p1: vector(w.skip(3)),
        p2: vector(w.skip(6)),
    }
}

// Eight numbers: origin, direction, shortest, longest.
pub fn ray(w: Words) -> Ray {
    Ray {
        origin: vector(w),
        direction: vector(w.skip(3)),
        shortest: w.number(6),
        longest: w.number(7),
    }
}

// Six words: each axis low word first.
pub fn axes(w: Words) -> Axes {
    Axes {
        width: w.whole(0),
        height: w.whole(2),
        depth: w.whole(4),
    }
}

// Six numbers.
pub fn corners(w: Words) -> Corners {
    Corners {
        min: vector(w),
        max: vector(w.skip(3)),
    }
}

// Six numbers: direction, colour.
pub fn light(w: Words) -> Light {
    Light {
        direction: vector(w),
        colour: vector(w.skip(3)),
    }
}

// Twelve numbers.
pub fn ambient(w: Words) -> Ambient {
    Ambient {
        c0: vector(w),
        c1: vector(w.skip(3)),
        c2: vector(w.skip(6)),
        c3: vector(w.skip(9)),
    }
}

// A scene's lists, and its box tree's where it has one.
#[derive(Clone, Copy)]
pub struct SceneLists<'a> {
    pub points: &'a [f32],
    pub uses: &'a [u32],
    pub kinds: &'a [u8],
    pub numbers: &'a [f32],
    pub tree: Option<Tree<'a>>,
}

#[derive(Clone, Copy)]
pub struct Tree<'a> {
    pub boxes: &'a [f32],
    pub nodes: &'a [u32],
    pub order: &'a [u32],
}

// Room for the lists of a scene and of its tree.
#[derive(Drop)]
pub struct SceneRoom {
    points: [f32; room::POINTS],
    uses: [u32; room::USES],
    kinds: [u8; room::KINDS],
    numbers: [f32; room::NUMBERS],
    boxes: [f32; room::BOXES],
    nodes: [u32; room::NODES],
    order: [u32; room::ORDER],
}

impl SceneRoom {
    pub fn new() -> SceneRoom {
        SceneRoom {
            points: [0.0; room::POINTS],
            uses: [0; room::USES],
            kinds: [0; room::KINDS],
            numbers: [0.0; room::NUMBERS],
            boxes: [0.0; room::BOXES],
            nodes: [0; room::NODES],
            order: [0; room::ORDER],
        }
    }

    // The scene whose lists begin at `lists`, with the tree whose lists begin at `tree`; none where there is no room for one of them.
    pub fn lend<'a>(&'a mut self, lists: Words, tree: Option<Words>) -> Option<SceneLists<'a>> {
        let SceneRoom {
            points,
            uses,
            kinds,
            numbers,
            boxes,
            nodes,
            order,
        } = self;
        let tree = match tree {
            None => None,
            Some(lists) => Some(Tree {
                boxes: lists.list(0).lend(boxes)?,
                nodes: lists.list(1).lend(nodes)?,
                order: lists.list(2).lend(order)?,
            }),
        };
        Some(SceneLists {
            points: lists.list(0).lend(points)?,
            uses: lists.list(1).lend(uses)?,
            kinds: lists.list(2).lend(kinds)?,
            numbers: lists.list(3).lend(numbers)?,
            tree,
        })
    }
}
