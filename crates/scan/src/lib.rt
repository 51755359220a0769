// The two scans over all triangles of a scene, in the list's order: the nearest hit, and how much light passes along a ray. Both go from hit to hit
// by one search for a triangle that may be met, of which the test and its kind and side then decide; neither knows how it goes.
#![tactic(auto)]

use triangle::Hit;

pub mod inner; // inner.rt: the two scans, over lists that fit each other

// A hit and the place of its triangle. Both searches answer one or nothing: for the nearest, "smallest t; among equal t the highest list place", and for the
// first hit in the list's order.
#[derive(Clone, Copy)]
pub struct PlacedHit {
    pub place: usize,
    pub hit: Hit,
}
