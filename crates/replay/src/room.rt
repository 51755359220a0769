// How many entries of each list that a call is lent there is room for: of a triangle more than are accepted, twice the materials, and 512 voxels; of a
// wide volume 32,768 voxels, and of masks and lights 81,920, more than sixteen bits count, each with a few more. Wide room is made only for a record
// that needs it, since it is cleared each time.
pub const POINTS: usize = 36900;

pub const USES: usize = 4100;

pub const KINDS: usize = 520;

pub const NUMBERS: usize = 3640;

pub const BOXES: usize = 24600;

pub const NODES: usize = 12300;

pub const ORDER: usize = 4100;

pub const HITS: usize = 4100;

pub const MASK: usize = 1285;

pub const LIGHT: usize = 82000;

pub const VOLUME: usize = 8320;

pub const WIDE_VOLUME: usize = 526400;
