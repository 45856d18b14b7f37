// Sends steps and runs of the trial orders on lent bytes, and writes what the calls answer and leave, a line for each; the file stdout has what
// they must be.
#![tactic(auto)]

mod say; // say.rt: a line of output
mod labels; // labels.rt: bytes that are labelled by where they begin
mod moment; // moment.rt: the buffers that are lent, and the state
mod steps; // steps.rt: steps and runs on lent bytes
mod still; // still.rt: an order that leaves every record where it is
mod blanks; // blanks.rt: plans that blank the spent area

use std::io;

fn main(rt: HostRuntime) -> io::Result<()> {
    steps::one_write(&rt)?;
    steps::in_turn(&rt)?;
    steps::lengths(&rt)?;
    steps::wholes(&rt)?;
    still::asked(&rt)?;
    still::runs(&rt)?;
    blanks::one_blank(&rt)?;
    blanks::in_parts(&rt)?;
    blanks::wholes(&rt)
}
