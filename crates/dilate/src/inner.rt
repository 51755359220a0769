// The active mask: the occupied mask is copied into it and dilated there, along x, then along y, then along z. Each time runs of 64 bits are taken together.
ghost use Rattle.std.specs.Prelude.{◌≡◌, ℕ, ◌+◌, ◌*◌, ◌%◌, ◌^◌, ◌<◌, ◌≤◌, length};
ghost use Rattle.grid.specs.Grid.{voxels};
ghost use Rattle.words.specs.Words.{bit_of, entries_of, Tidy, Holds};
ghost use Rattle.names.specs.Numbers.{reach};
ghost use Rattle.dilate.specs.Active.{active_of};
ghost use Rattle.dilate.specs.ByAxes.{dilate_middle, dilate_by_axes};
ghost use Rattle.dilate.specs.ByBlocks.{Run, Ored, Merged, SpreadTo, BlockDilated};

use grid::Axes;
use names::REACH;

// The active mask of occupied, in active.
pub fn dilate(axes: Axes, occupied: &[u64], active: &mut [u64])
    requires { (0 < axes.width) × (0 < axes.height) × (0 < axes.depth) × Tidy occupied.now (voxels axes) × (length active.old ≡ length occupied.now) × (voxels axes < 9223372036854775808) }
    ensures { Holds active.new (voxels axes) (active_of axes (entries_of occupied.now (voxels axes))) }
{
    copy(occupied, active);
    dilate_by_axes(axes, active);
}

// By index, as `means::inner::copy` is: C's archive needs no memmove.
fn copy(from: &[u64], to: &mut [u64])
    requires { length to.old ≡ length from.now }
    ensures { to.new ≡ from.now }
{
    for i in 0..to.len() {
        to[i] = from[i];
    }
}

// Along x, then y, then z: each is the middle axis of a grid that the mask is.
fn dilate_by_axes(axes: Axes, mask: &mut [u64])
    requires { (0 < axes.width) × (0 < axes.height) × (0 < axes.depth) × Tidy mask.old (voxels axes) × (voxels axes < 9223372036854775808) }
    ensures { Holds mask.new (voxels axes) (dilate_by_axes axes (entries_of mask.old (voxels axes))) }
{
    let x = Axes {
        width: 1,
        height: axes.width,
        depth: axes.depth * axes.height,
    };
    let z = Axes {
        width: axes.height * axes.width,
        height: axes.depth,
        depth: 1,
    };
    dilate_middle(x, mask);
    dilate_middle(axes, mask);
    dilate_middle(z, mask);
}

// Dilates a grid along its middle axis, block by block. A line of one place has no other to reach.
fn dilate_middle(view: Axes, mask: &mut [u64])
    requires { (0 < view.width) × (0 < view.height) × (0 < view.depth) × Tidy mask.old (voxels view) × (voxels view < 9223372036854775808) }
    ensures { Holds mask.new (voxels view) (dilate_middle view (entries_of mask.old (voxels view))) }
{
    if view.height == 1 {
        return;
    }
    let stride = view.width;
    let rest = (view.height - 1) * stride;
    for k in 0..view.depth {
        dilate_block(mask, k * (stride + rest), stride, rest);
    }
}

// Dilates the lines of a block of stride + rest bits.
fn dilate_block(mask: &mut [u64], o: usize, stride: usize, rest: usize)
    requires { (0 < stride) × (0 < rest) × (o + (stride + rest) ≤ length mask.old * 64) × (o + (stride + rest) < 9223372036854775808) }
    ensures { BlockDilated mask.old mask.new o stride (stride + rest) }
{
    if stride + rest <= 64 {
        let bits = bits_at(mask, o, stride + rest);
        let marks = dilate_word(bits, stride, stride + rest);
        or_bits(mask, o, stride + rest, marks);
        return;
    }
    dilate_long(mask, o, stride, rest);
}

// A block of more than a word's bits: what each mark reaches below it, and then above.
fn dilate_long(mask: &mut [u64], o: usize, stride: usize, rest: usize)
    requires { (o + (stride + rest) ≤ length mask.old * 64) × (o + (stride + rest) < 9223372036854775808) }
    ensures { BlockDilated mask.old mask.new o stride (stride + rest) }
{
    'down: for _ in 0..REACH {
        merge_above(mask, o, o + stride, rest);
    }
    'up: for _ in 0..REACH {
        merge_below(mask, o + stride, o, rest);
    }
}

// A block of at most a word's bits, in the same way.
fn dilate_word(bits: u64, stride: usize, m: usize) -> u64
    requires { (0 < stride) × (stride < m) × (m ≤ 64) × ((j : ℕ) → m ≤ j → bit_of bits j ≡ 0) }
    ensures { SpreadTo stride m reach reach (bit_of bits) (bit_of result) × ((j : ℕ) → m ≤ j → bit_of result j ≡ 0) }
{
    let mut marks = bits;
    'down: for _ in 0..REACH {
        marks |= marks >> stride;
    }
    'up: for _ in 0..REACH {
        marks |= marks << stride;
    }
    cut(marks, m)
}

// Sets n bits from `at` on where those from `from` on, further up, are set.
fn merge_above(words: &mut [u64], at: usize, from: usize, n: usize)
    requires { (at ≤ from) × (from + n ≤ length words.old * 64) × (from + n < 9223372036854775808) }
    ensures { Merged words.old words.new at from 0 n }
{
    for k in 0..n.div_ceil(64) {
        let i = k * 64;
        let len = (n - i).min(64);
        let bits = bits_at(words, from + i, len);
        or_bits(words, at + i, len, bits);
    }
}

// Sets n bits from `at` on where those from `from` on, further down, are set: from the last on, so that none is set before it is read.
fn merge_below(words: &mut [u64], at: usize, from: usize, n: usize)
    requires { (from ≤ at) × (at + n ≤ length words.old * 64) × (at + n < 9223372036854775808) }
    ensures { Merged words.old words.new at from 0 n }
{
    for k in (0..n.div_ceil(64)).rev() {
        let i = k * 64;
        let len = (n - i).min(64);
        let bits = bits_at(words, from + i, len);
        or_bits(words, at + i, len, bits);
    }
}

// The len bits from o on.
fn bits_at(words: &[u64], o: usize, len: usize) -> u64
    requires { (0 < len) × (len ≤ 64) × (o + len ≤ length words.now * 64) × (o + len < 9223372036854775808) }
    ensures { Run words.now o len result }
{
    let low = words[o / 64] >> (o % 64);
    if o % 64 + len <= 64 {
        return cut(low, len);
    }
    cut(low | (words[o / 64 + 1] << (64 - o % 64)), len)
}

// Sets the bits of v, len of them, from o on.
fn or_bits(words: &mut [u64], o: usize, len: usize, v: u64)
    requires { (0 < len) × (len ≤ 64) × (o + len ≤ length words.old * 64) × (o + len < 9223372036854775808) × ((j : ℕ) → len ≤ j → bit_of v j ≡ 0) }
    ensures { Ored words.old words.new o v }
{
    if v == 0 {
        return;
    }
    words[o / 64] |= v << (o % 64);
    if o % 64 + len <= 64 {
        return;
    }
    words[o / 64 + 1] |= v >> (64 - o % 64);
}

// The low m bits.
fn cut(w: u64, m: usize) -> u64
    requires { (0 < m) × (m ≤ 64) }
    ensures { result ≡ w % 2 ^ m }
{
    (w << (64 - m)) >> (64 - m)
}
