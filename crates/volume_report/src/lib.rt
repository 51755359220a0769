// One line of text for a volume file's figures.
#![tactic(auto)]

use names::Refusal;
use std::io;
use volume::Counts;

// Prints the six figures with single spaces, or `refused` and the number; a newline ends either.
pub fn print(rt: &impl Print, figures: Result<Counts, Refusal>) -> io::Result<()> {
    match figures {
        Ok(counts) => println!(rt;
            "{} {} {} {} {} {}",
            counts.axes.width,
            counts.axes.height,
            counts.axes.depth,
            counts.occupied,
            counts.active,
            counts.zeros
        ),
        Err(refusal) => println!(rt; "{refusal}"),
    }
}
