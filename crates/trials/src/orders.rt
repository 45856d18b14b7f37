// The trial orders on geometry, form and addresses.
use crate::say;
use addresses::{source_of, target_of};
use bank::Address;
use order::Order;
use std::io;
use trial::{exchange, geometry, gray, identity, in_g, largest, order, reversal, small, two_rows};

// Number, target and z.
pub(crate) fn forward(rt: &impl Print, asked: &str, o: Order, x: u64) -> io::Result<()> {
    let t = target_of(o, Address(x));
    say::line(rt, asked, &[u64::from(t.number), t.address.0, t.z.0])
}

// 0 and the source, or the number and z.
pub(crate) fn backward(rt: &impl Print, asked: &str, o: Order, y: u64) -> io::Result<()> {
    match source_of(o, Address(y)) {
        Ok(x) => say::line(rt, asked, &[0, x.0]),
        Err(why) => say::line(rt, asked, &[u64::from(why.number()), why.z().0]),
    }
}

// Number and z.
pub(crate) fn judged(rt: &impl Print, asked: &str, o: Order) -> io::Result<()> {
    let v = order::judge(o);
    say::line(rt, asked, &[u64::from(v.number), v.z.0])
}

// The identity's four rows on another bank.
fn units(n: u32, b: u32, d: u32, m: u32, r: u32) -> Order {
    order(geometry(n, b, d, m, r), 1, 2, 4, 8, 0)
}

pub(crate) fn geometries(rt: &impl Print) -> io::Result<()> {
    for (asked, o) in [
        ("G taken", identity(0)),
        ("b = m", units(4, 2, 0, 2, 8)),
        ("m = n", units(4, 1, 1, 4, 8)),
        ("b + d = m", units(4, 1, 2, 3, 8)),
        ("b + d = m + 1", units(4, 1, 3, 3, 8)),
        ("n = 32", largest(32, 8)),
        ("n = 33", largest(33, 8)),
        ("R = 256", largest(32, 256)),
        ("R = 257", largest(32, 257)),
        ("R = 0", largest(32, 0)),
        ("n = 1", order(geometry(1, 0, 0, 1, 8), 1, 0, 0, 0, 0)),
        ("32 5 253 6 8", units(32, 5, 253, 6, 8)),
        ("b + d past 32 bits", units(4, 1, 4294967295, 3, 8)),
    ] {
        judged(rt, asked, o)?;
    }
    Ok(())
}

pub(crate) fn forms(rt: &impl Print) -> io::Result<()> {
    for (asked, o) in [
        ("G, a row of 16", in_g(16, 2, 4, 8, 0)),
        ("G, c = 16", identity(16)),
        (
            "n = 2, a row place beyond n",
            order(geometry(2, 0, 0, 1, 8), 2, 1, 1, 0, 0),
        ),
        (
            "bad geometry, singular",
            order(geometry(4, 2, 0, 2, 8), 0, 0, 0, 0, 0),
        ),
        ("a row of 16, singular", in_g(16, 0, 0, 0, 0)),
        ("n = 2, rows 11, 11", two_rows(3, 3)),
        ("n = 2, zero rows", two_rows(0, 0)),
        ("G, rows 3, 5, 6, 8", in_g(3, 5, 6, 8, 0)),
    ] {
        judged(rt, asked, o)?;
    }
    Ok(())
}

pub(crate) fn forwards(rt: &impl Print) -> io::Result<()> {
    for (asked, o, x) in [
        ("reversal, 1", reversal(), 1),
        ("reversal, 3", reversal(), 3),
        ("reversal, 6", reversal(), 6),
        ("identity, c = 15, 5", identity(15), 5),
        ("Gray code, 5", gray(), 5),
        ("0010 0001 1000 0100, 1", exchange(), 1),
        ("n = 2, 01 10, 1", small(), 1),
        ("reversal, address N", reversal(), 16),
        ("reversal, address 2^32 + 1", reversal(), 4294967297),
        ("singular, address N", in_g(0, 0, 0, 0, 0), 16),
        ("b = m, address N", units(4, 2, 0, 2, 8), 16),
    ] {
        forward(rt, asked, o, x)?;
    }
    Ok(())
}

pub(crate) fn backwards(rt: &impl Print) -> io::Result<()> {
    for (asked, o, y) in [
        ("reversal, back from 8", reversal(), 8),
        ("reversal, back from 12", reversal(), 12),
        ("reversal, back from 6", reversal(), 6),
        ("identity, c = 15, back from 10", identity(15), 10),
        ("Gray code, back from 7", gray(), 7),
        ("0010 0001 1000 0100, back from 4", exchange(), 4),
        ("n = 2, 01 10, back from 2", small(), 2),
        ("reversal, back from N", reversal(), 16),
        ("singular, back from N", in_g(0, 0, 0, 0, 0), 16),
        ("G, a row of 16, back from N", in_g(16, 2, 4, 8, 0), 16),
        ("m = n, back from 1", units(4, 1, 1, 4, 8), 1),
    ] {
        backward(rt, asked, o, y)?;
    }
    Ok(())
}
