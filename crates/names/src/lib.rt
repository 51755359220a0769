// The numbers that the customer chose, as the code names them; specs/ has each with his sentence, and what every crate shares.
#![tactic(auto)]

mod refusal;

pub use refusal::{Refusal, told};

// ---- how many

pub const AXIS_LIMIT: usize = 128;

pub const TRIANGLE_LIMIT: usize = 4096;

pub const MATERIAL_LIMIT: usize = 256;

pub const OPAQUE_KIND: u8 = 0;

pub const PANEL_KIND: u8 = 2;

pub const LAST_KIND: u8 = 2;

pub const LAMP_LIMIT: usize = 8;

// ---- rays of a voxel

// at least
pub const PRIMARY_RAYS: u64 = 64;

// at most, without lamps, and for each lamp more
pub const BARE_COST: u64 = 384;

pub const LAMP_COST: u64 = 64;

pub const SKY_NUMBERS: usize = 1728;

// ---- how large a number may be

pub const POINT_LIMIT: f32 = 4096.0;

pub const EDGE_LIMIT: f32 = 0.0009765625;

pub const COLOUR_LIMIT: f32 = 65536.0;

pub const LIGHT_DIRECTION_LIMIT: f32 = 4096.0;

pub const ORIGIN_LIMIT: f32 = 65536.0;

pub const DIRECTION_LIMIT: f32 = 2.0;

pub const SHORTEST_LIMIT: f32 = 65536.0;

pub const POSITION_LIMIT: f32 = 4096.0;

// 2^64
pub const LIGHT_LIMIT: f32 = 18446744073709551616.0;

// 2^96
pub const COEFFICIENT_LIMIT: f32 = 79228162514264337593543950336.0;

// ---- rays

pub const THIN_LIMIT: f32 = 1.0e-12;

pub const FLAT_LIMIT: f32 = 1.0e-8;

pub const FAINT_LIMIT: f32 = 0.0001;

pub const SUN_SHORTEST: f32 = 1.0e-4;

pub const SUN_DIAGONALS: f32 = 3.0;

// ---- box trees

pub const BOX_PADDING: f32 = 1.0e-5;

pub const DEPTH_LIMIT: u8 = 24;

pub const LEAF_LIMIT: usize = 4;

// ---- masks

pub const MOST_SAMPLES: usize = 4096;

pub const MOST_TARGET: f32 = 4096.0;

pub const REACH: usize = 2;

// ---- the volume file

pub const LEAST_ENTRIES: u32 = 5;

pub const MOST_ENTRIES: u32 = 16;

pub const FIGURES_LIMIT: usize = 65536;

pub const MOST_UNITS: u64 = 16777216;

pub const BAND_WIDTH: u64 = 1048576;

pub const LENGTH_LIMIT: usize = 65536;

pub const FILES_LIMIT: u64 = 65536;
