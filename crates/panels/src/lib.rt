// Which triangles count. Whether a triangle that is met counts goes by its material's kind and by the side: document 02's C-19. Both scans ask here, and
// nowhere else does a kind decide whether a triangle is there.
#![tactic(auto)]

pub mod inner; // inner.rt: what is met of the triangle at a place
