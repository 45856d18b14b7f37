// The trial orders on plans: what is planned, and which plans can run.
use crate::say;
use bank::{ROWS, Step};
use order::Order;
use plan::make::make_plan;
use planning::Plan;
use planning::state::State;
use running::can_run;
use std::io;
use totals::{result_area, total_steps};

// Number, passes, steps, result area and z, where the plan blanks or doesn't; and the plan.
pub(crate) fn planned_so(rt: &impl Print, asked: &str, o: Order, blanks: bool) -> io::Result<Plan> {
    let made = make_plan(o, blanks);
    let p = made.plan;
    say::line(
        rt,
        asked,
        &[
            u64::from(made.number),
            u64::from(p.count),
            total_steps(p),
            u64::from(result_area(p)),
            made.z.0,
        ],
    )?;
    Ok(p)
}

pub(crate) fn planned(rt: &impl Print, asked: &str, o: Order) -> io::Result<()> {
    planned_so(rt, asked, o, false)?;
    Ok(())
}

pub(crate) fn runs(rt: &impl Print, asked: &str, p: Plan, next: u64) -> io::Result<()> {
    let s = State { next: Step(next) };
    say::line(rt, asked, &[u64::from(can_run(p, s))])
}

// The plan of an order, where it blanks or doesn't. One expression, so each program has its own.
pub(crate) fn plan(o: Order, blanks: bool) -> Plan {
    make_plan(o, blanks).plan
}

fn reversal() -> Plan {
    plan(trial::reversal(), false)
}

pub(crate) fn made(rt: &impl Print) -> io::Result<()> {
    for (asked, o) in [
        ("reversal", trial::reversal()),
        ("identity, c = 15", trial::identity(15)),
        ("identity", trial::identity(0)),
        ("Gray code", trial::gray()),
        ("0010 0001 1000 0100", trial::exchange()),
        ("n = 2, 01 10", trial::small()),
        ("n = 2, rows 11, 11", trial::two_rows(3, 3)),
        (
            "b = m",
            trial::order(trial::geometry(4, 2, 0, 2, 8), 8, 4, 2, 1, 0),
        ),
        ("G, a row of 16", trial::in_g(16, 2, 4, 8, 0)),
    ] {
        planned(rt, asked, o)?;
    }
    Ok(())
}

// Some rows of the reversal's plan, by their places.
pub(crate) fn rows(rt: &impl Print) -> io::Result<()> {
    let rows = reversal().rows;
    for (asked, row) in [
        ("reversal, pass 0, row 0", rows[0]),
        ("reversal, pass 0, row 1", rows[1]),
        ("reversal, pass 1, row 2", rows[ROWS + 2]),
        ("reversal, pass 2, row 0", rows[2 * ROWS]),
        ("reversal, pass 2, row place 4", rows[2 * ROWS + 4]),
        ("reversal, pass 3, row 0", rows[3 * ROWS]),
    ] {
        say::line(rt, asked, &[u64::from(row)])?;
    }
    Ok(())
}

// One plan for each condition of number 7.
pub(crate) fn judged(rt: &impl Print) -> io::Result<()> {
    let made = reversal();
    runs(rt, "reversal, next 0", made, 0)?;
    runs(rt, "reversal, next 24", made, 24)?;
    runs(rt, "reversal, next 25", made, 25)?;
    runs(rt, "the empty plan", store::empty_plan(), 0)?;
    let mut p = made;
    p.geometry.m = 4;
    runs(rt, "m = n", p, 0)?;
    p = made;
    p.geometry.r = 257;
    runs(rt, "R = 257", p, 0)?;
    p = made;
    p.count = 0;
    runs(rt, "three passes, none counted", p, 0)?;
    p.count = 18;
    runs(rt, "18 passes", p, 0)?;
    p = made;
    p.rows[0] = 21;
    runs(rt, "a stray bit in a row", p, 0)?;
    p = made;
    p.complements[0] = 16;
    runs(rt, "a stray bit in a complement", p, 0)?;
    p.complements[0] = 3;
    runs(rt, "a complement before the last pass", p, 0)
}

pub(crate) fn judged_more(rt: &impl Print) -> io::Result<()> {
    let made = reversal();
    let mut p = made;
    p.rows[3 * ROWS] = 1;
    runs(rt, "a row of an unused pass", p, 0)?;
    p = made;
    p.complements[3] = 1;
    runs(rt, "a complement of an unused pass", p, 0)?;
    p = made;
    p.rows[4] = 1;
    runs(rt, "a row place beyond n", p, 0)?;
    p = made;
    p.rows[ROWS] = 0;
    runs(rt, "a singular pass", p, 0)?;
    p = made;
    p.count = 2;
    runs(rt, "a pass that isn't counted", p, 0)
}

// The reversal as one pass: nonsingular, and it spills.
pub(crate) fn spilling(rt: &impl Print) -> io::Result<()> {
    let mut p = store::empty_plan();
    p.geometry = trial::geometry(4, 1, 1, 2, 8);
    p.count = 1;
    p.rows[..4].copy_from_slice(&[8, 4, 2, 1]);
    runs(rt, "a spilling pass", p, 0)?;
    p.rows[..4].copy_from_slice(&[1, 2, 4, 8]);
    runs(rt, "the same with the identity", p, 0)
}
