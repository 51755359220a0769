// Box trees that a caller hands in: document 02's C-20. A tree is three lists: boxes, six numbers a box, its low corner, then its high one; nodes, three whole
// numbers a box: 0 and its two halves, or how many triangles stand in it, a leaf, and where their run begins in the third list; order, places of triangles.
#![tactic(auto)]

pub mod inner; // inner.rt: whether a tree is accepted
