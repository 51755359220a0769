// "Samples 1, 2, 4, 5, 4096 give n 1, 2, 2, 3, 64": prints n for each count. The crate's file stdout has document 01's figures.
#![tactic(auto)]

use std::io;

fn main(rt: HostRuntime) -> io::Result<()> {
    for count in [1, 2, 4, 5, 4096] {
        println!(&rt; "{}", samples::inner::side(count))?;
    }
    Ok(())
}
