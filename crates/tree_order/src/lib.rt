// The order in which the builder's tree holds the triangles of a scene: document 02's C-20.
#![tactic(auto)]

pub mod inner; // inner.rt: the present places, put in order by halves

#[derive(Clone, Copy)]
pub enum Axis {
    X,
    Y,
    Z,
}
