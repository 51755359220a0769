// Reads the oracle's recorded answers and judges what a call gave. Each reading takes any input: past a record's end a word is 0.
//
// Standard input is a run of records, each led by its length in bytes. A record is a run of little-endian words, the first its kind. A list in
// it is its length, the length k of a pattern, the pattern's k words (entry i is word i mod k), the count of exceptions, and for each its
// place and its word. A list of places has two words an entry, low first, and its length counts words. A mask has an entry a voxel, and is lent as
// 64-bit words: entry i is bit i % 64 of word i / 64, set exactly where the entry is 1.
#![tactic(auto)]

ghost use Rattle.std.specs.Prelude.{◌≤◌, length, IfOk, IfSome};

use std::io;

mod entry;
mod list;
pub mod room; // room.rt: how long the lists are that a call is lent
mod tally;
mod words;

pub use entry::Entry;
pub use list::List;
pub use tally::{MOST, Tally};
pub use words::Words;

// The longest record that is read, in bytes.
const LONGEST: usize = 1048576;

// Judges the records of standard input one by one, up to the first difference, and prints what was compared. `judge` answers none where a record is
// none of its kinds, or has a list that is longer than the room for it.
pub fn run<J: Fn(Words, Tally) -> Option<Tally>>(
    rt: &(impl Input + Print),
    judge: J,
) -> io::Result<()>
    requires { J.IsAlwaysCallable judge }
{
    let mut buffer = [0; LONGEST];
    let mut tally = Tally::new();
    // A proved loop has to end, and nothing says that an input does: no run has that many records.
    for _ in 0..u64::MAX {
        let Some(record) = next(rt, &mut buffer)? else {
            break;
        };
        let begun = tally.begun();
        tally = judge(Words::of(record), begun).unwrap_or(begun.held(false));
        if tally.differs() {
            break;
        }
    }
    tally.report(rt)
}

// The next record of standard input; none at the input's end, or where it is empty or longer than the buffer.
pub fn next<'a>(rt: &impl Input, buffer: &'a mut [u8]) -> io::Result<Option<&'a [u8]>>
    ensures { IfOk result (λ found. IfSome found (λ r. length r.now ≤ length buffer.old)) }
{
    let mut lead = [0; 4];
    if console::read_full(rt, &mut lead)? < lead.len() {
        return Ok(None);
    }
    let n = u32::from_le_bytes(lead) as usize;
    if n == 0 {
        return Ok(None);
    }
    let Some(record) = buffer.get_mut(..n) else {
        return Ok(None);
    };
    if console::read_full(rt, record)? < n {
        return Ok(None);
    }
    Ok(Some(record))
}

// Whether a record that was made for the engine with hit scratch is put to the one for solid walls too: every kind is opaque, and both lists of hits are
// long enough for t triangles, so that the two have one answer.
pub fn through_both(kinds: &[u8], t: usize, distances: usize, places: usize) -> bool {
    kinds.iter().all(|kind| *kind == 0) && t <= distances && t <= places
}
