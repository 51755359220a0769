// What the crates above read and write of a list of bytes. Each call's places lie within the list.
ghost use Rattle.std.specs.Prelude.{◌≡◌, false, ◌+◌, ◌*◌, ◌<◌, ◌≤◌, length, get_or};
ghost use Rattle.std.proofs.lemmas.List.Edits.{sets};
ghost use Rattle.std.specs.Float.{binary32};
ghost use Rattle.std.specs.Float.Ieee.{to_bits, is_nan};
ghost use Rattle.names.specs.Bits.{lit};
ghost use Rattle.bytes_le.specs.Bytes.{u16_at, u32_at, f32_at, floats_at, bytes2, bytes4, encode, NoneNan};

// With the sign taken off, the patterns above an infinity's are the NaNs'.
const INFINITY: u32 = 0x7f80_0000;

const SIGN: u32 = 0x8000_0000;

// ---- numbers out of bytes

// The u16 at `at`.
pub fn u16_at(s: &[u8], at: usize) -> u32
    requires { at + 2 ≤ length s.now }
    ensures { (result ≡ u16_at s.now at) × (result < 65536) }
{
    wide(s[at]) + wide(s[at + 1]) * 256
}

// The u32 at `at`.
pub fn u32_at(s: &[u8], at: usize) -> u32
    requires { at + 4 ≤ length s.now }
    ensures { result ≡ u32_at s.now at }
{
    wide(s[at]) + wide(s[at + 1]) * 256 + wide(s[at + 2]) * 65536 + wide(s[at + 3]) * 16777216
}

// The f32 at `at`, whatever its pattern.
pub fn f32_at(s: &[u8], at: usize) -> f32
    requires { at + 4 ≤ length s.now }
    ensures { result ≡ f32_at s.now at }
{
    float_of(u32_at(s, at))
}

// Fills `out` with the numbers from `at` on.
pub fn floats_into(s: &[u8], at: usize, out: &mut [f32])
    requires { at + length out.old * 4 ≤ length s.now }
    ensures { out.new ≡ floats_at s.now at (length out.old) }
{
    let mut i: usize = 0;
    while i < out.len() {
        out[i] = f32_at(s, at + i * 4);
        i += 1;
    }
}

// ---- numbers into bytes

pub fn put_u16(s: &mut [u8], at: usize, n: u32)
    requires { at + 2 ≤ length s.old }
    ensures { s.new ≡ sets s.old at (bytes2 n) }
{
    s[at] = (n % 256) as u8;
    s[at + 1] = (n / 256 % 256) as u8;
}

pub fn put_u32(s: &mut [u8], at: usize, n: u32)
    requires { at + 4 ≤ length s.old }
    ensures { s.new ≡ sets s.old at (bytes4 n) }
{
    s[at] = (n % 256) as u8;
    s[at + 1] = (n / 256 % 256) as u8;
    s[at + 2] = (n / 65536 % 256) as u8;
    s[at + 3] = (n / 16777216 % 256) as u8;
}

pub fn put_f32(s: &mut [u8], at: usize, x: f32)
    requires { at + 4 ≤ length s.old }
    ensures { s.new ≡ sets s.old at (bytes4 (to_bits binary32 x)) }
{
    put_u32(s, at, bits_of(x));
}

// Writes all numbers of `xs`, none of them NaN, from `at` on.
pub fn put_floats(s: &mut [u8], at: usize, xs: &[f32])
    requires { (at + length xs.now * 4 ≤ length s.old) × NoneNan xs.now }
    ensures { s.new ≡ sets s.old at (encode xs.now) }
{
    let mut i: usize = 0;
    while i < xs.len() {
        put_number(s, at + i * 4, xs[i]);
        i += 1;
    }
}

// An f32 that is not NaN: its pattern needs no test.
fn put_number(s: &mut [u8], at: usize, x: f32)
    requires { (at + 4 ≤ length s.old) × (is_nan x ≡ false) }
    ensures { s.new ≡ sets s.old at (bytes4 (to_bits binary32 x)) }
{
    put_u32(s, at, f32::to_bits(x));
}

// ---- a float and its pattern

// The f32 of a pattern; every NaN pattern is the one NaN.
fn float_of(bits: u32) -> f32
    ensures { result ≡ lit bits }
{
    if INFINITY < bits % SIGN {
        return 0.0 / 0.0;
    }
    f32::from_bits(bits)
}

// The pattern of an f32; a NaN's is 0x7fc00000.
fn bits_of(x: f32) -> u32
    ensures { result ≡ to_bits binary32 x }
{
    if x != x {
        return 0x7fc0_0000;
    }
    f32::to_bits(x)
}

fn wide(b: u8) -> u32
    ensures { (result ≡ b) × (result < 256) }
{
    b as u32
}
