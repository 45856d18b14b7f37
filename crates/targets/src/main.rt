// Asks about lists of targets, right and wrong, and writes what the call answers, a line for each; the file stdout has what they must be.
#![tactic(auto)]

mod say; // say.rt: a line for an answer, and one for numbers
mod small; // small.rt: lists of four and of sixteen entries
mod long; // long.rt: lists of 65,536 entries
mod texts; // texts.rt: list texts, right and wrong

use std::io;

fn main(rt: HostRuntime) -> io::Result<()> {
    small::orders(&rt)?;
    small::singular(&rt)?;
    small::changed(&rt)?;
    small::lengths(&rt)?;
    small::large(&rt)?;
    small::large_among_wrong(&rt)?;
    small::every_four(&rt)?;
    long::random(&rt)?;
    texts::right(&rt)?;
    texts::wrong(&rt)
}
