// The builder run on scenes of 0, 1, 4, 5 and 4,096 triangles in a row, on triangles that all stand at one place, on absent ones, and on a row that leaves the
// limits, which is refused. For each it prints how many boxes and places there are, and 1 if the tree is accepted; of five triangles also the places in their
// order and the nodes. The first row begins at the far end, so that its order turns about; at one place the order stays.
#![tactic(auto)]

ghost use Rattle.std.specs.Prelude.{◌/◌, ◌≤◌, length};

use std::io;

const MOST: usize = 4096;

fn main(rt: HostRuntime) -> io::Result<()> {
    let mut points = [0.0; MOST * 9];
    scene(&mut points, 0.25, 1.0);
    for n in [0, 1, 4, 5, MOST] {
        report(&rt, &points, n)?;
    }
    scene(&mut points, 0.0, 1.0);
    report(&rt, &points, 5)?;
    report(&rt, &points, MOST)?;
    scene(&mut points, 0.25, 0.0);
    report(&rt, &points, MOST)?;
    scene(&mut points, -1.0, 1.0);
    report(&rt, &points, MOST)
}

// Triangles along x, the first at the far end, each `step` from the one before: a right angle of sides `side`; of sides 0, and so absent, where side is 0.
fn scene(points: &mut [f32; MOST * 9], step: f32, side: f32) {
    let mut x = 1000.0;
    let (triangles, _) = points.as_chunks_mut::<9>();
    for triangle in triangles {
        *triangle = [x, 0.0, 0.0, x + side, 0.0, 0.0, x, side, 0.0];
        x = x - step;
    }
}

// Builds the tree of the first n triangles of a list.
fn report(rt: &impl Print, points: &[f32; MOST * 9], n: usize) -> io::Result<()>
    requires { n ≤ 4096 }
{
    let mut boxes = [0.0; MOST * 6];
    let mut nodes = [0; MOST * 3];
    let mut order = [0; MOST];
    let part = &points[..n * 9];
    match tree_build::build_tree(part, &mut boxes, &mut nodes, &mut order) {
        Ok(size) => {
            let n = size.boxes.min(MOST);
            let m = size.places.min(MOST);
            show(rt, part, &boxes[..n * 6], &nodes[..n * 3], &order[..m])
        }
        Err(refusal) => println!(rt; "{refusal} "),
    }
}

fn show(
    rt: &impl Print,
    points: &[f32],
    boxes: &[f32],
    nodes: &[u32],
    order: &[u32],
) -> io::Result<()>
    requires { length points.now / 9 ≤ 4096 }
{
    let mark = if tree::inner::accepted(points, boxes, nodes, order) {
        "1"
    } else {
        ""
    };
    println!(rt; "{} {} {mark}", nodes.len() / 3, order.len())?;
    if order.len() == 5 {
        list(rt, order)?;
        list(rt, nodes)?;
    }
    Ok(())
}

fn list(rt: &impl Print, l: &[u32]) -> io::Result<()> {
    for number in l {
        print!(rt; "{number} ")?;
    }
    println!(rt)
}
