// A builder of box trees: document 02's C-20. Its trees are accepted for every scene that is not refused (`build_accepted`).
#![tactic(auto)]

ghost use Rattle.std.specs.Prelude.{◌≡◌};
ghost use Rattle.names.specs.Answers.{answer_number};
ghost use Rattle.tree_build.specs.Build.{wrong_build, build_refusal, built_from, BuildAnswered};

use names::{Refusal, TRIANGLE_LIMIT};

pub mod inner; // inner.rt: the boxes of a run, by halves

// How many boxes and how many places a tree has.
#[derive(Clone, Copy)]
pub struct TreeSize {
    pub boxes: usize,
    pub places: usize,
}

// What C is answered: a refusal's number, or 0 and the tree's size.
#[repr(C)]
#[derive(Clone, Copy)]
pub struct TreeBuilt {
    pub refusal: u32,
    pub boxes: usize,
    pub places: usize,
}

impl From<Result<TreeSize, Refusal>> for TreeBuilt {
    ghost from_gives = { λ a t. t ≡ built_from a };

    fn from(answer: Result<TreeSize, Refusal>) -> TreeBuilt {
        match answer {
            Ok(size) => TreeBuilt {
                refusal: 0,
                boxes: size.boxes,
                places: size.places,
            },
            Err(refusal) => TreeBuilt {
                refusal: u32::from(refusal),
                boxes: 0,
                places: 0,
            },
        }
    }
}

// Builds the tree of a scene, at the front of three lists: six numbers and three whole numbers a box, and the places of the present triangles. What stands
// behind stays. The tree is handed on as the parts boxes[..6b], nodes[..3b] and order[..p] of an answer of b boxes and p places. Each list has room for as many
// boxes and places as there are triangles, so that there is room whatever the tree's shape. Refusals 3, 4 and 5.
pub fn build_tree(
    points: &[f32],
    boxes: &mut [f32],
    nodes: &mut [u32],
    order: &mut [u32],
) -> Result<TreeSize, Refusal>
    ensures { BuildAnswered points.now boxes.old nodes.old order.old (built_from result) boxes.new nodes.new order.new }
{
    judge(points, boxes.len(), nodes.len(), order.len())?;
    let places = tree_order::inner::put_order(points, order);
    let boxes = inner::put_tree(points, boxes, nodes, order, places);
    Ok(TreeSize { boxes, places })
}

// 3, 4, 5
fn judge(points: &[f32], boxes: usize, nodes: usize, order: usize) -> Result<(), Refusal>
    ensures { answer_number result ≡ build_refusal points.now boxes nodes order }
{
    if wrong_build(points.len(), boxes, nodes, order) {
        return Err(Refusal::Lengths);
    }
    if TRIANGLE_LIMIT < points.len() / 9 {
        return Err(Refusal::TooMany);
    }
    if limits::inner::bad_points(points) {
        return Err(Refusal::Points);
    }
    Ok(())
}

// Whether the points are not nine for each triangle, or a list is too short.
fn wrong_build(points: usize, boxes: usize, nodes: usize, order: usize) -> bool
    ensures { result ≡ wrong_build points boxes nodes order }
{
    let t = points / 9;
    (points % 9 != 0) | (boxes < t * 6) | (nodes < t * 3) | (order < t)
}
