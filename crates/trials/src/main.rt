// Asks about the trial orders and their plans, and writes what the calls answer, a line for each; the file stdout has what they must be.
#![tactic(auto)]

mod say; // say.rt: a line of output
mod orders; // orders.rt: geometry, form and addresses
mod plans; // plans.rt: plans made, and plans judged
mod why; // why.rt: why an order is singular
mod still; // still.rt: an order that leaves every record where it is
mod blanks; // blanks.rt: plans that blank the spent area
mod limits; // limits.rt: what is tried at the limits

use std::io;

fn main(rt: HostRuntime) -> io::Result<()> {
    orders::geometries(&rt)?;
    orders::forms(&rt)?;
    orders::forwards(&rt)?;
    orders::backwards(&rt)?;
    why::small(&rt)?;
    why::wide(&rt)?;
    plans::made(&rt)?;
    plans::rows(&rt)?;
    plans::judged(&rt)?;
    plans::judged_more(&rt)?;
    plans::spilling(&rt)?;
    still::planned(&rt)?;
    blanks::planned(&rt)?;
    blanks::judged(&rt)?;
    limits::words(&rt)?;
    limits::made(&rt)?;
    limits::counts(&rt)?;
    limits::totals(&rt)?;
    limits::lengths(&rt)
}
