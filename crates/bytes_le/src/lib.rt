// Little-endian numbers: u16, u32 and f32 out of bytes and into bytes, and runs of them.
#![tactic(auto)]

pub mod inner;
