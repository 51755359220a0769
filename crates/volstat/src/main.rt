// Reads one volume file on standard input, and prints its figures or its refusal. One byte more than the limit is enough to refuse.
#![tactic(auto)]

use std::io;

fn main(rt: HostRuntime) -> io::Result<()> {
    let mut buffer = [0u8; 65537];
    let n = console::read_full(&rt, &mut buffer)?;
    volume_report::print(&rt, volume::file_figures(&buffer[..n]))
}
