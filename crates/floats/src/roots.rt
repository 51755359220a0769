// The root's 24 digits and its exponent, in whole numbers.
ghost use Rattle.std.specs.Prelude.{◌≡◌, ℕ, ◌+◌, ◌*◌, ◌<◌, ◌≤◌};
ghost use Rattle.floats.specs.RootParts.{Near, Rounds, Rooted, SmallRooted};

// The pattern of the root of m * 2^(e - 173), for an m of 24 digits.
pub fn of_digits(m: u64, e: u64) -> u32
    requires { (8388608 ≤ m) × (m < 16777216) × (e < 278) }
    ensures { Rooted m e result }
{
    let odd = e % 2;
    let r = settle(m * (odd * 8388608 + 8388608), crate::guesses::guess(m, odd));
    ((e / 2 + 51) * 8388608 + r) as u32
}

// The root of a number below 2^-126, whose digits are first moved up until there are 24.
pub fn of_small(t: u64) -> u32
    requires { (0 < t) × (t < 8388608) }
    ensures { SmallRooted t result }
{
    let mut m = t;
    let mut e = 24u64;
    while m < 8388608 {
        m = m * 2;
        e -= 1;
    }
    of_digits(m, e)
}

// The whole number nearest to the root of n, from any guess g.
fn settle(n: u64, g: u64) -> u64
    requires near { Near n }
    requires g_bound { g < 33554432 }
    ensures { Rounds n result }
{
    let s = g * g;
    if s + g < n {
        return up(n, g);
    }
    if n + g <= s {
        return down(n, g);
    }
    g
}

// From below.
fn up(n: u64, g: u64) -> u64
    requires near { Near n }
    requires g_bound { g * g + g < n }
    ensures { Rounds n result }
{
    let mut r = g;
    while r * r + r < n {
        r += 1;
    }
    r
}

// From above.
fn down(n: u64, g: u64) -> u64
    requires near { Near n }
    requires g_bound { (g < 33554432) × (n + g ≤ g * g) }
    ensures { Rounds n result }
{
    let mut r = g;
    while n + r <= r * r {
        r -= 1;
    }
    r
}
