// What only the crates above call, each with what it requires.
ghost use Rattle.std.specs.Prelude.{◌≡◌};
ghost use Rattle.floats.specs.Whole.{SmallWhole, whole_of};

// A whole number below 65,536 as an integer; −0 is 0.
pub fn whole_of(x: f32) -> usize
    requires { SmallWhole x }
    ensures { result ≡ whole_of x }
{
    if x == 0.0 {
        return 0;
    }
    x as usize
}
