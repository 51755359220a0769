// Standard input into lent bytes, and numbers as text on standard output.
#![tactic(auto)]

ghost use Rattle.std.specs.Io.{ReadsAtMost};

use std::io;
use std::io::Read;

mod number;

pub use number::{decimal, print_decimal, print_hex};

// Reads until `buf` is full or the input ends, and answers how many bytes came; they stand at the start of `buf`.
pub fn read_full(rt: &impl Input, buf: &mut [u8]) -> io::Result<usize>
    ensures { ReadsAtMost result buf.new }
{
    let mut input = rt.reader();
    let mut done = 0;
    while done < buf.len() {
        let n = input.read(&mut buf[done..])?;
        if n == 0 {
            break;
        }
        done += n;
    }
    Ok(done)
}
