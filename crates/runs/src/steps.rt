// The trial orders on steps and runs: what each call answers, and what the bytes are afterwards.
ghost use Rattle.std.specs.Prelude.{◌≤◌};

use crate::labels::{arrived, changed, wrongly_written};
use crate::moment::{AREA, MEMORY, Moment};
use crate::say;
use order::Order;
use plan::make::make_plan;
use planning::Plan;
use planning::state::State;
use std::io;
use totals::result_area;

// More bytes than an area or the memory has.
const LONG: usize = 136;

// The plan of an order, where it blanks or doesn't. One expression, so each program has its own.
pub(crate) fn plan(o: Order, blanks: bool) -> Plan {
    make_plan(o, blanks).plan
}

fn reversal() -> Plan {
    plan(trial::reversal(), false)
}

pub(crate) fn one_write(rt: &impl Print) -> io::Result<()> {
    let p = reversal();
    let mut area0 = [0u8; AREA];
    let mut area1 = [0u8; AREA];
    let mut memory = [0u8; MEMORY];
    let mut l = Moment::labelled(&mut area0, &mut area1, &mut memory);
    l.memory.fill(0);
    l.ask(rt, "reversal, step 0", p, 0)?;
    l.ask(rt, "reversal, step 1", p, 1)?;
    for (said, count) in [
        ("bytes of area 1 that are wrong", wrongly_written(&area1)),
        ("bytes of area 0 that changed", changed(&area0, 50)),
        ("bytes of memory that are wrong", changed(&memory, 50)),
    ] {
        say::line(rt, said, &[count])?;
    }
    Ok(())
}

// The numbers of steps and runs, in and out of turn, from the first step to past the last.
pub(crate) fn in_turn(rt: &impl Print) -> io::Result<()> {
    let p = reversal();
    let mut l = Moment {
        area0: &mut [0u8; AREA],
        area1: &mut [0u8; AREA],
        memory: &mut [0u8; MEMORY],
        state: State::fresh(),
    };
    l.ask(rt, "fresh, step 0", p, 0)?;
    l.ask(rt, "then step 0", p, 0)?;
    l.ask(rt, "then step 2", p, 2)?;
    l.ask(rt, "then step 1", p, 1)?;
    l.go(rt, "then a run of 0", p, 0)?;
    l.go(rt, "then a run of 1", p, 1)?;
    l.go(rt, "then a run of 100", p, 100)?;
    l.go(rt, "then a run of 100", p, 100)?;
    l.ask(rt, "then step 23", p, 23)?;
    l.ask(rt, "then step 24", p, 24)?;
    l.ask(rt, "then step 22", p, 22)
}

// A step asked with three labelled buffers of the lengths given; then how many bytes of each changed.
pub(crate) fn lent(
    rt: &impl Print,
    asked: &str,
    p: Plan,
    k: u64,
    l0: usize,
    l1: usize,
    lm: usize,
) -> io::Result<()>
    requires { (l0 ≤ LONG) × (l1 ≤ LONG) × (lm ≤ LONG) }
{
    let mut area0 = [0u8; LONG];
    let mut area1 = [0u8; LONG];
    let mut memory = [0u8; LONG];
    let mut l = Moment::labelled(&mut area0[..l0], &mut area1[..l1], &mut memory[..lm]);
    l.ask(rt, asked, p, k)?;
    l.say_changed(rt)
}

// Wrong lengths, and the order of the checks.
pub(crate) fn lengths(rt: &impl Print) -> io::Result<()> {
    let p = reversal();
    lent(rt, "area 0 short", p, 0, AREA - 1, AREA, MEMORY)?;
    lent(rt, "area 0 long", p, 0, AREA + 1, AREA, MEMORY)?;
    lent(rt, "area 0 empty", p, 0, 0, AREA, MEMORY)?;
    lent(rt, "area 1 short", p, 0, AREA, AREA - 1, MEMORY)?;
    lent(rt, "area 1 long", p, 0, AREA, AREA + 1, MEMORY)?;
    lent(rt, "area 1 empty", p, 0, AREA, 0, MEMORY)?;
    lent(rt, "memory short", p, 0, AREA, AREA, MEMORY - 1)?;
    lent(rt, "memory long", p, 0, AREA, AREA, MEMORY + 1)?;
    lent(rt, "memory empty", p, 0, AREA, AREA, 0)?;
    let empty = store::empty_plan();
    lent(
        rt,
        "the empty plan, area 0 empty, step 30",
        empty,
        30,
        0,
        AREA,
        MEMORY,
    )?;
    lent(rt, "area 0 empty, step 30", p, 30, 0, AREA, MEMORY)?;
    lent(rt, "step 30", p, 30, AREA, AREA, MEMORY)?;
    lent(rt, "step 5", p, 5, AREA, AREA, MEMORY)?;
    lent(rt, "step 0", p, 0, AREA, AREA, MEMORY)?;
    let wide = plan(trial::largest(32, 256), false);
    lent(rt, "areas of 2^40 bytes", wide, 0, AREA, AREA, MEMORY)
}

// A whole run with each step again: steps answered rightly, and records that arrived; where the plan blanks, bytes that are zero too.
pub(crate) fn whole(
    rt: &impl Print,
    asked: &str,
    o: Order,
    blanks: bool,
    bytes: usize,
    room: usize,
) -> io::Result<()>
    requires { (bytes ≤ AREA) × (room ≤ MEMORY) }
{
    let p = plan(o, blanks);
    let mut area0 = [0u8; AREA];
    let mut area1 = [0u8; AREA];
    let mut memory = [0u8; MEMORY];
    let mut l = Moment::labelled(
        &mut area0[..bytes],
        &mut area1[..bytes],
        &mut memory[..room],
    );
    let right = l.twice(p);
    let there = if result_area(p) == 0 {
        arrived(o, l.area0)
    } else {
        arrived(o, l.area1)
    };
    say::line(rt, asked, &[right, there])?;
    if blanks {
        l.say_zeros(rt)?;
    }
    Ok(())
}

pub(crate) fn wholes(rt: &impl Print) -> io::Result<()> {
    for (asked, o) in [
        ("reversal, whole", trial::reversal()),
        ("identity, c = 15, whole", trial::identity(15)),
        ("identity, whole", trial::identity(0)),
        ("Gray code, whole", trial::gray()),
        ("0010 0001 1000 0100, whole", trial::exchange()),
    ] {
        whole(rt, asked, o, false, AREA, MEMORY)?;
    }
    whole(rt, "n = 2, 01 10, whole", trial::small(), false, 32, 16)
}
