// The trials of plans that blank the spent area: how many steps they have, and from which states they can run.
use crate::plans::{plan, planned_so, runs};
use crate::say;
use order::Order;
use std::io;
use trial::{gray, identity, reversal, small, two_rows};

// The plan, and 1 where it keeps that it blanks.
fn planned_one(rt: &impl Print, asked: &str, o: Order) -> io::Result<()> {
    let p = planned_so(rt, asked, o, true)?;
    say::line(rt, "and it keeps that it blanks", &[u64::from(p.blanks)])
}

pub(crate) fn planned(rt: &impl Print) -> io::Result<()> {
    for (asked, o) in [
        ("reversal, blanking", reversal()),
        ("Gray code, blanking", gray()),
        ("identity, c = 15, blanking", identity(15)),
        ("identity, blanking", identity(0)),
        ("n = 2, 01 10, blanking", small()),
        ("n = 2, rows 11, 11, blanking", two_rows(3, 3)),
    ] {
        planned_one(rt, asked, o)?;
    }
    Ok(())
}

// The total is 36: where a plan that doesn't blank can't run any more, this one can.
pub(crate) fn judged(rt: &impl Print) -> io::Result<()> {
    let p = plan(reversal(), true);
    runs(rt, "reversal, blanking, next 25", p, 25)?;
    runs(rt, "reversal, blanking, next 36", p, 36)?;
    runs(rt, "reversal, blanking, next 37", p, 37)?;
    let p = plan(identity(0), true);
    runs(rt, "identity, blanking, next 0", p, 0)?;
    runs(rt, "identity, blanking, next 1", p, 1)
}
