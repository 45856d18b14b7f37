// The trials of the order that leaves every record where it is, and of those that come near it: which has no pass?
use crate::plans;
use std::io;
use trial::{identity, in_g, largest};

// The identity with the lowest or the highest bit of c alone, and with one entry more in its first or its last row.
pub(crate) fn planned(rt: &impl Print) -> io::Result<()> {
    plans::planned(rt, "identity, c = 1", identity(1))?;
    plans::planned(rt, "identity, c = 8", identity(8))?;
    plans::planned(rt, "identity but for row 0", in_g(3, 2, 4, 8, 0))?;
    plans::planned(rt, "identity but for row 3", in_g(1, 2, 4, 12, 0))?;
    plans::planned(rt, "n = 32, identity", largest(32, 8))?;
    let p = plans::plan(identity(0), false);
    plans::runs(rt, "identity, next 0", p, 0)?;
    plans::runs(rt, "identity, next 1", p, 1)
}
