// The trials of the order that leaves every record where it is: what steps and runs of a plan of no passes answer and leave.
ghost use Rattle.std.specs.Prelude.{◌≤◌};

use crate::moment::{AREA, MEMORY, Moment};
use crate::steps::{lent, plan};
use bank::Step;
use planning::Plan;
use planning::state::State;
use std::io;

fn identity() -> Plan {
    plan(trial::identity(0), false)
}

// Steps asked, and buffers of wrong lengths.
pub(crate) fn asked(rt: &impl Print) -> io::Result<()> {
    let p = identity();
    lent(rt, "identity, step 0", p, 0, AREA, AREA, MEMORY)?;
    lent(rt, "identity, step 1", p, 1, AREA, AREA, MEMORY)?;
    lent(rt, "identity, area 0 short", p, 0, AREA - 1, AREA, MEMORY)?;
    lent(rt, "identity, area 1 long", p, 0, AREA, AREA + 1, MEMORY)?;
    lent(rt, "identity, memory empty", p, 0, AREA, AREA, 0)
}

// A run from a state with three labelled buffers, the memory of so many bytes; then how many bytes of each changed.
fn run(rt: &impl Print, asked: &str, next: u64, allowance: u64, room: usize) -> io::Result<()>
    requires { room ≤ MEMORY }
{
    let mut area0 = [0u8; AREA];
    let mut area1 = [0u8; AREA];
    let mut memory = [0u8; MEMORY];
    let mut l = Moment::labelled(&mut area0, &mut area1, &mut memory[..room]);
    l.state = State { next: Step(next) };
    l.go(rt, asked, identity(), allowance)?;
    l.say_changed(rt)
}

pub(crate) fn runs(rt: &impl Print) -> io::Result<()> {
    for (asked, next, allowance, room) in [
        ("identity, a run of 5", 0, 5, MEMORY),
        ("identity, a run of 0", 0, 0, MEMORY),
        ("identity, memory short, a run of 5", 0, 5, MEMORY - 1),
        ("identity, from step 1, a run of 5", 1, 5, MEMORY),
        (
            "identity, from step 1, memory short, a run of 5",
            1,
            5,
            MEMORY - 1,
        ),
    ] {
        run(rt, asked, next, allowance, room)?;
    }
    Ok(())
}
