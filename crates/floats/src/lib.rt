// Module 1, floats: square root, floor, ceiling, magnitude, larger and smaller, for every f32.
// Given NaN, or the root a negative but −0, the six on f32 answer NaN. The six on bit patterns answer 0x7fc00000 there, and promise all 32 bits.
#![tactic(auto)]

ghost use Rattle.std.specs.Prelude.{◌≡◌};
ghost use Rattle.std.specs.Float.{binary32};
ghost use Rattle.std.specs.Float.Ieee.{to_bits, of_bits};
ghost use Rattle.floats.specs.Choice.{magnitude_of, larger_of, smaller_of};
ghost use Rattle.floats.specs.Patterns.{on_bits, on_both};
ghost use Rattle.floats.specs.Root.{root_of};
ghost use Rattle.floats.specs.Whole.{floor_of, ceiling_of};

pub mod inner; // inner.rt: what the crates above call
mod guesses; // guesses.rt: the table behind a root's first guess
mod roots; // roots.rt: a root's digits
mod wholes; // wholes.rt: the digits of a whole number

// The f32 nearest to the root of x.
pub fn root(x: f32) -> f32
    ensures { result ≡ root_of x }
{
    if x.is_nan() {
        return f32::NAN;
    }
    let b = x.to_bits();
    if b < 0x7f800000 {
        if b >= 0x800000 {
            return f32::from_bits(roots::of_digits(
                (b % 0x800000 + 0x800000) as u64,
                (b / 0x800000 + 23) as u64,
            ));
        }
        if b == 0 {
            return x;
        }
        return f32::from_bits(roots::of_small(b as u64));
    }
    if b == 0x7f800000 {
        return x;
    }
    if b == 0x80000000 {
        return x;
    }
    f32::NAN
}

// The largest whole number not above x. The sign of x is kept, also at 0.
pub fn floor(x: f32) -> f32
    ensures { result ≡ floor_of x }
{
    wholes::integral(x, false)
}

// The smallest whole number not below x. The sign of x is kept, also at 0.
pub fn ceiling(x: f32) -> f32
    ensures { result ≡ ceiling_of x }
{
    wholes::integral(x, true)
}

// x with its sign made plus.
pub fn magnitude(x: f32) -> f32
    ensures { result ≡ magnitude_of x }
{
    if x.is_nan() {
        return f32::NAN;
    }
    f32::from_bits(x.to_bits() & 0x7fffffff)
}

// The larger of two; of two equals, as −0 and +0 are, the second.
pub fn larger(x: f32, y: f32) -> f32
    ensures { result ≡ larger_of x y }
{
    if x.is_nan() | y.is_nan() {
        return f32::NAN;
    }
    if y < x { x } else { y }
}

// The smaller of two; of two equals the second.
pub fn smaller(x: f32, y: f32) -> f32
    ensures { result ≡ smaller_of x y }
{
    if x.is_nan() | y.is_nan() {
        return f32::NAN;
    }
    if x < y { x } else { y }
}

// ---- the same on bit patterns

pub fn root_bits(b: u32) -> u32
    ensures { result ≡ on_bits root_of b }
{
    pattern(root(number(b)))
}

pub fn floor_bits(b: u32) -> u32
    ensures { result ≡ on_bits floor_of b }
{
    pattern(floor(number(b)))
}

pub fn ceiling_bits(b: u32) -> u32
    ensures { result ≡ on_bits ceiling_of b }
{
    pattern(ceiling(number(b)))
}

pub fn magnitude_bits(b: u32) -> u32
    ensures { result ≡ on_bits magnitude_of b }
{
    pattern(magnitude(number(b)))
}

pub fn larger_bits(b: u32, c: u32) -> u32
    ensures { result ≡ on_both larger_of b c }
{
    pattern(larger(number(b), number(c)))
}

pub fn smaller_bits(b: u32, c: u32) -> u32
    ensures { result ≡ on_both smaller_of b c }
{
    pattern(smaller(number(b), number(c)))
}

// twins: bytes_le and replay have these two as well, for to share them would set both crates above this one for six lines
// The number that a pattern stands for: every pattern of a NaN for the one NaN.
fn number(b: u32) -> f32
    ensures { result ≡ of_bits binary32 b }
{
    if b % 0x80000000 > 0x7f800000 {
        return f32::NAN; // the one NaN
    }
    f32::from_bits(b)
}

// The pattern of a number: 0x7fc00000 of a NaN, whatever NaN the processor made.
fn pattern(x: f32) -> u32
    ensures { result ≡ to_bits binary32 x }
{
    if x.is_nan() {
        return 0x7fc00000;
    }
    x.to_bits()
}
