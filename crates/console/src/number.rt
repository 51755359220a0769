// A u64 as text, in ASCII.
ghost use Rattle.std.specs.Prelude.{◌≡◌, take, drop};
ghost use Rattle.std.specs.Counts.{IsPrefixLen};
ghost use Rattle.console.specs.Digits.{last_digits, IsDigitCount};

use std::io;

// Puts n's decimal digits at the start of out, and returns how many there are.
pub fn decimal(n: u64, out: &mut [u8; 20]) -> usize
    ensures in_bounds { IsPrefixLen result out.new }
    ensures len { IsDigitCount 10 1 n result }
    ensures digits { take result out.new ≡ last_digits 10 result n }
    ensures rest { drop result out.new ≡ drop result out.old }
{
    let k = n.max(1).ilog10() as usize + 1;
    let mut rest = n;
    for i in (0..k).rev() {
        out[i] = b'0' + (rest % 10) as u8;
        rest /= 10;
    }
    k
}

// Writes `n` in decimal.
pub fn print_decimal(rt: &impl Print, n: u64) -> io::Result<()> {
    rt.print(n)
}

// Writes `n` in hexadecimal, in lower case, with zeros in front up to width digits. A width of 0
// counts as 1, and one above 16 as 16.
pub fn print_hex(rt: &impl Print, n: u64, width: usize) -> io::Result<()> {
    let width = width.min(16);
    print!(rt; "{n:0width$x}")
}
