// Checks each line of the input as a text of its own, and prints the answer's number and place.
#![tactic(auto)]

use std::io;

fn main(rt: HostRuntime) -> io::Result<()> {
    for line in rt.lines(rt.alloc()) {
        let text = line?;
        let (number, place) = grammar::check(text.as_bytes());
        println!(rt; "{number} {place}")?;
    }
    Ok(())
}
