// A run with an allowance of steps.
ghost use Rattle.std.specs.Prelude.{◌≡◌, ◌+◌, ◌<◌, ◌^◌};
ghost use Rattle.planning.specs.Stored.{route_of};
ghost use Rattle.moving.specs.Call.{lent};
ghost use Rattle.blocks.specs.Moving.{MoveReady, StepsReady, move_by};
ghost use Rattle.mover.specs.Promise.{RunPromise};
ghost use Rattle.mover.specs.Lent.{SameLent, bytes_in};
ghost use Rattle.moving.specs.Step.{buffers_of, move, moves_from};

use crate::lent::Lent;
use crate::step::ready;
use bank::Step;
use blocks::moves::move_step;
use planning::Plan;
use planning::state::State;
use tables::pace::Pace;
use tables::tables::Tables;
use totals::total_steps;

// The number, the steps that were done, and the state that follows, as `RunPromise` asks for each.
#[derive(Clone, Copy, Debug, PartialEq, Eq)]
pub struct Ran {
    pub number: u8,
    pub count: u64,
    pub state: State,
}

// So many steps of the tables' pass, from the first on.
fn run_pass(t: Tables, first: Step, count: u64, lent: &mut Lent)
    requires { MoveReady t (bytes_in lent.old) × (first.0 + count < 2 ^ 64) }
    ensures same { SameLent lent.old lent.new }
    ensures moved { bytes_in lent.new ≡ moves_from (move_by t) first.0 count (bytes_in lent.old) }
{
    for i in 0..count {
        move_step(t, Step(first.0 + i), lent.area0, lent.area1, lent.memory);
    }
}

// So many steps of a plan, from the first on: pass after pass, with the tables worked out once for each.
fn run_steps(plan: Plan, first: Step, count: u64, lent: &mut Lent)
    requires { StepsReady plan first.0 count (bytes_in lent.old) }
    ensures same { SameLent lent.old lent.new }
    ensures moved { bytes_in lent.new ≡ moves_from (move (route_of plan)) first.0 count (bytes_in lent.old) }
{
    let each = Pace::of(plan).pass;
    let mut done: u64 = 0;
    // It goes on by what a pass has left, so no range gives it.
    while done < count {
        let s = first.0 + done;
        let k = (count - done).min(each - s % each);
        let t = Tables::of(plan, s / each);
        run_pass(t, Step(s), k, lent);
        done += k;
    }
}

// The next steps, as many as are allowed and left; or a refusal, which changes nothing. A call lends its buffers one by one; inside they are `Lent`.
pub fn run(
    plan: Plan,
    state: State,
    allowance: u64,
    area0: &mut [u8],
    area1: &mut [u8],
    memory: &mut [u8],
) -> Ran
    ensures { RunPromise plan (lent state area0.old area1.old memory.old) allowance result
        (buffers_of area0.new area1.new memory.new) }
{
    let mut lent = Lent {
        area0,
        area1,
        memory,
    };
    if let Err(refusal) = ready(plan, state, &lent) {
        return Ran {
            number: refusal.number(),
            count: 0,
            state: state.kept(),
        };
    }
    let all = total_steps(plan);
    let left = all - state.next.0;
    let count = allowance.min(left);
    run_steps(plan, state.next, count, &mut lent);
    Ran {
        number: 0,
        count,
        state: state.advanced(count),
    }
}
