// The head of a volume file, `VGRD`, three u16 axes and a u16 entry count, and its table of contents.
#![tactic(auto)]

pub mod inner;

// What the kind of an entry stands for.
#[derive(Clone, Copy)]
pub enum Kind {
    Light,
    Coefficients,
    Active,
    Occupied,
    Corners,
    Foreign,
    Refused,
}
