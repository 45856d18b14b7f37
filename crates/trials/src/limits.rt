// The trials at the limits: 32 bits of an address, records of 256 bytes, 17 passes, and totals past 32 bits.
ghost use Rattle.std.specs.Prelude.{◌≤◌};
ghost use Rattle.bank.specs.Limits;

use crate::{orders, plans, say};
use bank::{Geometry, ROWS, Step};
use matrix::rows::identity;
use mover::run::run;
use mover::step::{Stepped, step};
use order::Order;
use planning::Plan;
use planning::state::State;
use running::can_run;
use std::io;
use totals::total_steps;
use trial::geometry;

// The last address of a bank with n = 32, and one more.
pub(crate) const LAST: u64 = 4294967295;

pub(crate) const SIZE: u64 = 4294967296;

// Bit 31.
const HIGH: u32 = 2147483648;

// An order with n = 32.
fn order(rows: [u32; ROWS], b: u32, d: u32, m: u32, r: u32) -> Order {
    Order {
        geometry: geometry(32, b, d, m, r),
        rows,
        complement: 4294967295,
    }
}

// Bit 31 in every row: alone, so that all rows are the same, or beside the row's own bit.
fn same_rows() -> [u32; ROWS] {
    [HIGH; ROWS]
}

fn high_rows() -> [u32; ROWS] {
    identity(ROWS).map(|row| row | HIGH)
}

// The bit reversal.
fn reversed_rows() -> [u32; ROWS] {
    let mut rows = identity(ROWS);
    rows.reverse();
    rows
}

// No bit is stray, and the largest address is taken.
pub(crate) fn words(rt: &impl Print) -> io::Result<()> {
    let high = order(high_rows(), 6, 2, 14, 8);
    let same = order(same_rows(), 6, 2, 14, 8);
    orders::judged(rt, "n = 32, bit 31 in every row", high)?;
    orders::judged(rt, "n = 32, bit 31 alone in every row", same)?;
    orders::forward(rt, "n = 32, bit 31 in every row, 0", high, 0)?;
    orders::forward(rt, "n = 32, bit 31 in every row, 2^31", high, 2147483648)?;
    orders::forward(
        rt,
        "n = 32, bit 31 in every row, 2^31 + 1",
        high,
        2147483649,
    )?;
    orders::forward(rt, "n = 32, address N - 1", high, LAST)?;
    orders::forward(rt, "n = 32, address N", high, SIZE)?;
    orders::forward(rt, "n = 32, address 2^64 - 1", high, 18446744073709551615)?;
    orders::forward(rt, "n = 32, singular, address N", same, SIZE)?;
    orders::backward(rt, "n = 32, back from N - 1", high, LAST)?;
    orders::backward(rt, "n = 32, back from 0", high, 0)?;
    orders::backward(rt, "n = 32, back from N", high, SIZE)?;
    orders::backward(rt, "n = 32, singular, back from N", same, SIZE)
}

// Plans for n = 32: as many passes as there are, and totals past 32 bits.
pub(crate) fn made(rt: &impl Print) -> io::Result<()> {
    plans::planned(
        rt,
        "n = 32, reversal, 16 rounds",
        order(reversed_rows(), 15, 1, 16, 256),
    )?;
    plans::planned(
        rt,
        "n = 32, reversal, blocks of one record on one drive",
        order(reversed_rows(), 0, 0, 1, 1),
    )?;
    plans::planned(
        rt,
        "n = 32, bit 31 alone in every row",
        order(same_rows(), 0, 0, 1, 1),
    )
}

// A plan whose passes leave every record at its address.
fn still(g: Geometry, count: u32) -> Plan
    requires { g.n ≤ Limits.ROWS }
{
    let mut p = store::empty_plan();
    let unit = identity(g.n as usize);
    for (q, row) in p.rows.iter_mut().enumerate() {
        if q / ROWS < count as usize {
            *row = unit[q % ROWS];
        }
    }
    p.geometry = g;
    p.count = count;
    p
}

// At how many n, from 2 to 32, a plan of so many passes can run.
fn sizes(count: u32) -> usize {
    (2..33)
        .filter(|n| can_run(still(geometry(*n, 0, 0, 1, 1), count), State::fresh()))
        .count()
}

pub(crate) fn counts(rt: &impl Print) -> io::Result<()> {
    for (asked, count) in [
        ("no passes, so many n at which they can run", 0),
        ("14 passes, so many n at which they can run", 14),
        ("15 passes, so many n at which they can run", 15),
        ("16 passes, so many n at which they can run", 16),
        ("17 passes, so many n at which they can run", 17),
        ("18 passes, so many n at which they can run", 18),
    ] {
        say::line(rt, asked, &[sizes(count) as u64])?;
    }
    Ok(())
}

// The longest run: 17 passes of 2^33 steps.
pub(crate) fn totals(rt: &impl Print) -> io::Result<()> {
    let p = still(geometry(32, 0, 0, 1, 256), 17);
    let total = 146028888064;
    say::line(rt, "n = 32, 17 passes, the total", &[total_steps(p)])?;
    plans::runs(rt, "next 2^32", p, SIZE)?;
    plans::runs(rt, "next at the total", p, total)?;
    plans::runs(rt, "next above the total", p, total + 1)?;
    plans::runs(rt, "next 2^32 above the total", p, total + SIZE)?;
    plans::runs(rt, "next 2^64 - 1", p, 18446744073709551615)
}

// A step and a run from a state, with no bytes lent: both are refused.
fn short(rt: &impl Print, asked: &str, p: Plan, next: u64, k: u64) -> io::Result<()> {
    let s = State { next: Step(next) };
    if let Stepped::Refused(number, _) = step(p, s, Step(k), &mut [], &mut [], &mut []) {
        say::line(rt, asked, &[u64::from(number)])?;
    }
    let ran = run(p, s, LAST, &mut [], &mut [], &mut []);
    say::line(
        rt,
        "and a run",
        &[u64::from(ran.number), ran.count, ran.state.next.0],
    )
}

// Areas of 2^40 bytes and a memory of 2^39, or areas of 2^32: in 32 bits each is 0, and so are buffers of no bytes.
pub(crate) fn lengths(rt: &impl Print) -> io::Result<()> {
    let p = still(geometry(32, 0, 0, 31, 256), 2);
    let q = still(geometry(32, 0, 0, 1, 1), 2);
    let total = 4 * SIZE;
    short(rt, "areas of 2^40 bytes, none lent", p, 0, 0)?;
    short(rt, "areas of 2^32 bytes, none lent", q, 0, 0)?;
    short(rt, "at step 2^32 + 1, asked 0, none lent", p, SIZE + 1, 0)?;
    short(rt, "at the total, asked it, none lent", p, total, total)?;
    short(rt, "above the total, none lent", p, total + 1, total)
}
