// The trials of z: why an order is singular, as each call shows it.
ghost use Rattle.std.specs.Prelude.{◌<◌};
ghost use Rattle.bank.specs.Limits;

use crate::limits::{LAST, SIZE};
use crate::{orders, plans};
use bank::ROWS;
use matrix::rows::identity;
use order::Order;
use std::io;
use trial::{geometry, in_g, two_rows};

// What is said of an order, and of an address asked both ways.
fn shown(rt: &impl Print, asked: &str, o: Order, x: u64) -> io::Result<()> {
    orders::judged(rt, asked, o)?;
    orders::forward(rt, "  forwards", o, x)?;
    orders::backward(rt, "  backwards", o, x)?;
    plans::planned(rt, "  planning", o)
}

// Small ones, asked at 0, at another address, and at N.
pub(crate) fn small(rt: &impl Print) -> io::Result<()> {
    for (asked, o, x) in [
        ("n = 2, rows 11, 11", two_rows(3, 3), 0),
        ("n = 2, zero rows", two_rows(0, 0), 4),
        ("three rows that sum to zero", in_g(3, 5, 6, 8, 9), 16),
        ("0100 0010 0001 0000", in_g(2, 4, 8, 0, 0), 5),
        ("0000 1000 0100 0010", in_g(0, 1, 2, 4, 0), 5),
        ("1100 0011 and zero rows", in_g(3, 12, 0, 0, 15), 16),
        ("a zero column", in_g(1, 2, 4, 1, 0), 1),
        ("G, a row of 16, singular", in_g(16, 3, 3, 3, 0), 0),
    ] {
        shown(rt, asked, o, x)?;
    }
    Ok(())
}

// An order of ROWS rows.
fn large(rows: [u32; ROWS]) -> Order {
    Order {
        geometry: geometry(ROWS as u32, 6, 2, 14, 8),
        rows,
        complement: 1,
    }
}

// Row i is the unit row i; but one row is another.
fn all_but(at: usize, row: u32) -> [u32; ROWS]
    requires { at < Limits.ROWS }
{
    let mut rows = identity(ROWS);
    rows[at] = row;
    rows
}

// Each row has its own bit and the next one, the last none: only all ones are sent to zero.
fn neighbours() -> [u32; ROWS] {
    let mut rows = all_but(ROWS - 1, 0);
    for i in 1..ROWS {
        rows[i - 1] |= 1 << i;
    }
    rows
}

// z of one digit and of ten, where an address has as many bits as a word.
pub(crate) fn wide(rt: &impl Print) -> io::Result<()> {
    for (asked, o, x) in [
        ("n = 32, row 0 is zero", large(all_but(0, 0)), SIZE),
        ("n = 32, row 31 is zero", large(all_but(31, 0)), LAST),
        (
            "n = 32, row 31 is all rows",
            large(all_but(31, 2147483647)),
            0,
        ),
        ("n = 32, neighbours", large(neighbours()), SIZE),
    ] {
        shown(rt, asked, o, x)?;
    }
    Ok(())
}
