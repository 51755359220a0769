// Floor and ceiling on an f32's 24 digits.
ghost use Rattle.std.specs.Prelude.{◌≡◌, cond, ℕ, ◌^◌, ◌-◌, ◌<◌, eqb, ltb};
ghost use Rattle.floats.specs.Whole.{step, toward};

// x to a whole number, up or down.
pub fn integral(x: f32, up: bool) -> f32
    ensures { result ≡ toward up x }
{
    if x.is_nan() {
        return f32::NAN;
    }
    let b = x.to_bits();
    let negative = b >= 0x80000000;
    let a = b % 0x80000000;
    // From 2^23 up, and the infinities.
    if a >= 0x4b000000 {
        return x;
    }
    if a == 0 {
        return x;
    }
    let k = places(a / 0x800000);
    let y = whole(a % 0x800000 + 0x800000, k, negative != up) as f32;
    if negative { -y } else { y }
}

// How many of the 24 digits of a number with the exponent's field f lie below its point: 24 also where the point lies further up.
fn places(f: u32) -> u32
    requires { f < 150 }
    ensures { result ≡ cond (ltb f 126) 24 (150 - f) }
{
    if f < 126 { 24 } else { 150 - f }
}

// m / 2^k, cut to a whole number, or raised to one where away is true.
fn whole(m: u32, k: u32, away: bool) -> u32
    requires { (m < 16777216) × (k < 25) }
    ensures { result ≡ step away m (2 ^ k) }
{
    (m + u32::from(away) * ((1u32 << k) - 1)) >> k
}
