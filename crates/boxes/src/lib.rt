// A box of a tree, by value: document 02's C-20. A box knows nothing of the tree that it stands in.
#![tactic(auto)]

pub mod inner; // inner.rt: a box out of a list, around a triangle, inside another, passed over by a ray

// Along the axes, from the low corner to the high one.
#[derive(Clone, Copy)]
pub struct Bounds {
    pub low: vectors::Vec3,
    pub high: vectors::Vec3,
}
