// What the volume's calls read and write of head and contents.
ghost use Rattle.std.specs.Prelude.{◌≡◌, ◌+◌, ◌*◌, ◌<◌, ◌≤◌, length};
ghost use Rattle.std.proofs.lemmas.List.Edits.{sets};
ghost use Rattle.names.specs.Numbers.{voxel_limit};
ghost use Rattle.grid.specs.Grid.{voxels, AxesWithin};
ghost use Rattle.contents.specs.Contents.{mark, marked, headed, axes_at, entries_at, kind_of, body_fits, entry_good, contents_good, bodies_from, head_of, entry_of};

use super::Kind;
use grid::Axes;
use names::{LEAST_ENTRIES, MOST_ENTRIES};

// The mark of a volume file.
const MARK: [u8; 4] = [b'V', b'G', b'R', b'D'];

// Whether head and contents are there: the mark, an entry count of 5 to 16, and as many entries.
pub fn is_headed(s: &[u8]) -> bool
    ensures { result ≡ headed s.now }
{
    if s.len() < 12 {
        return false;
    }
    if !is_marked(s) {
        return false;
    }
    let n = bytes_le::inner::u16_at(s, 10);
    if n < LEAST_ENTRIES {
        return false;
    }
    if MOST_ENTRIES < n {
        return false;
    }
    12 + size(n) * 12 <= s.len()
}

// The axes of the head.
pub fn axes_at(s: &[u8]) -> Axes
    requires { 12 ≤ length s.now }
    ensures { result ≡ axes_at s.now }
{
    let w = size(bytes_le::inner::u16_at(s, 4));
    let h = size(bytes_le::inner::u16_at(s, 6));
    let d = size(bytes_le::inner::u16_at(s, 8));
    Axes {
        width: w,
        height: h,
        depth: d,
    }
}

// The entry count of the head.
pub fn entries_at(s: &[u8]) -> usize
    requires { 12 ≤ length s.now }
    ensures { result ≡ entries_at s.now }
{
    size(bytes_le::inner::u16_at(s, 10))
}

// Whether the contents fit a grid of so many voxels: kinds, offsets and lengths, entry by entry, and nothing after the last body.
pub fn contents_fit(s: &[u8], entries: usize, voxels: usize) -> bool
    requires { (bodies_from entries ≤ length s.now) × (entries ≤ 16) × (voxels ≤ voxel_limit) }
    ensures { result ≡ contents_good s.now entries voxels }
{
    let mut i: usize = 0;
    let mut previous: u32 = 0;
    let mut start: usize = 12 + entries * 12;
    while i < entries {
        let at = 12 + i * 12;
        let kind = bytes_le::inner::u32_at(s, at);
        let offset = size(bytes_le::inner::u32_at(s, at + 4));
        let long = size(bytes_le::inner::u32_at(s, at + 8));
        if !entry_fits(kind, previous, offset, start, long, i, voxels) {
            return false;
        }
        previous = kind;
        start = start + long;
        i += 1;
    }
    start == s.len()
}

// One entry: its kind above the one before, its body right after the one before, and fit for its kind.
fn entry_fits(
    kind: u32,
    previous: u32,
    offset: usize,
    start: usize,
    long: usize,
    i: usize,
    voxels: usize,
) -> bool
    requires { voxels ≤ voxel_limit }
    ensures { result ≡ entry_good kind previous offset start long i voxels }
{
    if kind <= previous {
        return false;
    }
    if offset != start {
        return false;
    }
    body_fits(kind_of(kind), i, long, voxels)
}

// Kinds 1 to 5 are the volume's, 128 to 255 foreign bodies, and every other kind is refused.
fn kind_of(kind: u32) -> Kind
    ensures { result ≡ kind_of kind }
{
    match kind {
        1 => Kind::Light,
        2 => Kind::Coefficients,
        3 => Kind::Active,
        4 => Kind::Occupied,
        5 => Kind::Corners,
        128..=255 => Kind::Foreign,
        _ => Kind::Refused,
    }
}

// Whether entry i, of this kind, may stand there and be so long.
fn body_fits(kind: Kind, i: usize, long: usize, voxels: usize) -> bool
    requires { voxels ≤ voxel_limit }
    ensures { result ≡ body_fits kind i long voxels }
{
    match kind {
        Kind::Light => (i == 0) & (long == voxels * 4),
        Kind::Coefficients => (i == 1) & (long == voxels * 64),
        Kind::Active => (i == 2) & (long == voxels),
        Kind::Occupied => (i == 3) & (long == voxels),
        Kind::Corners => (i == 4) & (long == 24),
        Kind::Foreign => 5 <= i,
        Kind::Refused => false,
    }
}

// ---- written

// Writes the mark, the axes and the entry count 5.
pub fn put_head(s: &mut [u8], axes: Axes)
    requires { (12 ≤ length s.old) × AxesWithin axes }
    ensures { s.new ≡ sets s.old 0 (head_of axes) }
{
    put_mark(s);
    bytes_le::inner::put_u16(s, 4, axes.width as u32);
    bytes_le::inner::put_u16(s, 6, axes.height as u32);
    bytes_le::inner::put_u16(s, 8, axes.depth as u32);
    bytes_le::inner::put_u16(s, 10, LEAST_ENTRIES);
}

// Writes an entry of the contents, from byte `at` on.
pub fn put_entry(s: &mut [u8], at: usize, kind: u32, offset: usize, long: usize)
    requires { (at + 12 ≤ length s.old) × (offset < 4294967296) × (long < 4294967296) }
    ensures { s.new ≡ sets s.old at (entry_of kind offset long) }
{
    bytes_le::inner::put_u32(s, at, kind);
    bytes_le::inner::put_u32(s, at + 4, offset as u32);
    bytes_le::inner::put_u32(s, at + 8, long as u32);
}

// ---- the mark, and widths

fn is_marked(s: &[u8]) -> bool
    requires { 4 ≤ length s.now }
    ensures { result ≡ marked s.now }
{
    (s[0] == MARK[0]) & (s[1] == MARK[1]) & (s[2] == MARK[2]) & (s[3] == MARK[3])
}

fn put_mark(s: &mut [u8])
    requires { 4 ≤ length s.old }
    ensures { s.new ≡ sets s.old 0 mark }
{
    s[0] = MARK[0];
    s[1] = MARK[1];
    s[2] = MARK[2];
    s[3] = MARK[3];
}

fn size(n: u32) -> usize
    ensures { (result ≡ n) × (result < 4294967296) }
{
    n as usize
}
