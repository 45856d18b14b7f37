// The steps of a plan are sent in turn, each so many times more.
#![tactic(auto)]

pub mod progress; // progress.rt: what is said while the steps are sent

ghost use Rattle.std.specs.Prelude.{◌≡◌, ◌+◌};
ghost use Rattle.moving.specs.Step.{buffers_of};
ghost use Rattle.moving.specs.Call.{begun, lent};
ghost use Rattle.totals.specs.Total.{total_steps};
ghost use Rattle.sending.specs.Sent.{asked_times, asked_in_turn};

use crate::progress::{Progress, say_end, say_step};
use bank::Step;
use mover::step::step;
use planning::Plan;
use planning::state::State;
use totals::total_steps;

// Step k, and then so many times more; the state that follows.
// The areas and the memory stay three parameters, as in `step`, whose signature is fixed.
fn send_step(
    plan: Plan,
    state: State,
    k: u64,
    again: u64,
    area0: &mut [u8],
    area1: &mut [u8],
    memory: &mut [u8],
) -> State
    ensures { lent result area0.new area1.new memory.new
        ≡ asked_times plan k (again + 1) (lent state area0.old area1.old memory.old) }
{
    let first = step(plan, state, Step(k), area0, area1, memory);
    let mut s = first.state();
    for _ in 0..again {
        let answer = step(plan, s, Step(k), area0, area1, memory);
        s = answer.state();
    }
    s
}

// Every step of the plan in turn, from the fresh state on, each so many times more.
// What can't be said of it is left unsaid: no step depends on that.
pub fn send_all<R: Eprint>(
    rt: &R,
    plan: Plan,
    again: u64,
    progress: Progress,
    area0: &mut [u8],
    area1: &mut [u8],
    memory: &mut [u8],
)
    ensures { buffers_of area0.new area1.new memory.new
        ≡ (asked_in_turn plan again (total_steps plan) (begun (buffers_of area0.old area1.old memory.old))).buffers }
{
    let total = total_steps(plan);
    let each = (total / u64::from(plan.count).max(1)).max(1);
    let mut s = State::fresh();
    for k in 0..total {
        s = send_step(plan, s, k, again, area0, area1, memory);
        say_step(rt, progress, k / each, each, k + 1, total);
    }
    say_end(rt, progress, total);
}
