// Prints the table of directions as it was recorded from the Rust: a line for each direction, set by set, with the patterns of x, y and
// z in hexadecimal. The crate's file stdout is the record itself, so the gate compares all 1,728 patterns.
#![tactic(auto)]

use std::io;
use std::num::f32_to_bits_with_nan;

fn main(rt: HostRuntime) -> io::Result<()> {
    let table = directions::table();
    let (directions, _) = table.as_chunks::<3>();
    for direction in directions {
        let [x, y, z] = direction.map(|c| f32_to_bits_with_nan(c));
        println!(&rt; "{x:08x} {y:08x} {z:08x}")?;
    }
    Ok(())
}
