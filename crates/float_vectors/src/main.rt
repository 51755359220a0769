// Holds the six functions of `floats`, on bit patterns, to vectors that Rust's own operations gave (tools/float_vectors.rs): for each function
// it prints how many vectors standard input has, and how many of them the function answers. The crate's file stdout has both counts.
#![tactic(auto)]

ghost use Rattle.std.specs.Prelude.{◌<◌, ◌≤◌};

use std::io;

// A function's letter, a space, and three patterns of eight digits, each with a space or a newline after it.
const LINE: usize = 29;

fn main(rt: HostRuntime) -> io::Result<()> {
    let mut buffer = [0u8; 262144];
    let n = console::read_full(&rt, &mut buffer)?;
    report(&rt, &buffer[..n])
}

fn report(rt: &impl Print, s: &[u8]) -> io::Result<()> {
    tell(rt, s, b'r', "root", |b, _| floats::root_bits(b))?;
    tell(rt, s, b'f', "floor", |b, _| floats::floor_bits(b))?;
    tell(rt, s, b'c', "ceiling", |b, _| floats::ceiling_bits(b))?;
    tell(rt, s, b'm', "magnitude", |b, _| floats::magnitude_bits(b))?;
    tell(rt, s, b'l', "larger", |b, c| floats::larger_bits(b, c))?;
    tell(rt, s, b's', "smaller", |b, c| floats::smaller_bits(b, c))
}

// How many lines are this function's, and how many of those have its answer.
fn tell<A: Fn(u32, u32) -> u32>(
    rt: &impl Print,
    s: &[u8],
    letter: u8,
    name: &str,
    answer: A,
) -> io::Result<()>
    requires { (f : _) (b : _) (c : _) → A.pre f b c }
{
    let (lines, _) = s.as_chunks::<LINE>();
    let vectors = lines.iter().filter(|line| line[0] == letter).count();
    let held = lines
        .iter()
        .filter(|line| line[0] == letter)
        .filter(|line| answer(pattern(line, 2), pattern(line, 11)) == pattern(line, 20))
        .count();
    println!(rt; "{name} {vectors} vectors, held {held}")
}

// The pattern whose eight digits begin there.
fn pattern(line: &[u8; LINE], at: usize) -> u32
    requires { at ≤ 21 }
{
    line[at..at + 8].iter().fold(0, |n, d| n << 4 | digit(*d))
}

fn digit(a: u8) -> u32
    ensures { result < 16 }
{
    match a {
        b'0'..=b'9' => u32::from(a - b'0'),
        b'a'..=b'f' => u32::from(a - b'a') + 10,
        _ => 0,
    }
}
