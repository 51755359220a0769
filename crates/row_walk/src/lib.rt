// The nearest hit and the transmittance by a tree's rows: one loop, no box asked twice. specs/RowLaws says that they are the scans of the scene.
#![tactic(auto)]

pub mod inner; // inner.rt: both scans
