// What the league's figures ask of one light.
ghost use Rattle.std.specs.Prelude.{◌≡◌, ◌≤◌, false};
ghost use Rattle.names.specs.Numbers.{most_units};
ghost use Rattle.light_units.specs.Units.{units_of, light_outside};

// 2^24: times a power of two is exact, so that the whole part is that of the light itself.
const MOST_UNITS: f32 = 16777216.0;

// Whether a light lies outside 0..1, or is not a number.
pub fn is_outside(light: f32) -> bool
    ensures { result ≡ light_outside light }
{
    !((0.0 <= light) & (light <= 1.0))
}

// The units of a light inside 0..1.
pub fn units_of(light: f32) -> u64
    requires { light_outside light ≡ false }
    ensures { (result ≡ units_of light) × (result ≤ most_units) }
{
    std::num::truncating_f32_to_u64(light * MOST_UNITS)
}
