// A step that is asked for.
ghost use Rattle.std.specs.Prelude.{◌≡◌};
ghost use Rattle.planning.specs.Pass.{total};
ghost use Rattle.planning.specs.Stored.{route_of};
ghost use Rattle.moving.specs.Call.{lent, turn_number};
ghost use Rattle.blocks.specs.Moving.{StepsReady};
ghost use Rattle.mover.specs.Promise.{StepPromise, number_of, state_of};
ghost use Rattle.mover.specs.Turn.{number_told};
ghost use Rattle.mover.specs.Lent.{SameLent, bytes_in, ready_with};
ghost use Rattle.bank.specs.Refusal.{number_in};
ghost use Rattle.moving.specs.Step.{buffers_of, move};

use crate::lent::Lent;
use bank::Step;
use bank::refusal::Refusal;
use blocks::moves::move_step;
use planning::Plan;
use planning::state::State;
use running::can_run;
use tables::pace::pass_of;
use tables::tables::Tables;
use totals::total_steps;

// Done, done again (9), or refused by a number; each with the state that follows. `case_of` gives the case of each number.
#[derive(Clone, Copy, Debug, PartialEq, Eq)]
pub enum Stepped {
    Done(State),
    Again(State),
    Refused(u8, State),
}

impl Stepped {
    // The number of the answer.
    #[tactic(auto, unfolding(crate::specs::Promise::number_of))]
    pub fn number(self) -> u8
        ensures { result ≡ number_of self }
    {
        match self {
            Stepped::Done(_) => 0,
            Stepped::Again(_) => 9,
            Stepped::Refused(number, _) => number,
        }
    }

    // The state that follows.
    #[tactic(auto, unfolding(crate::specs::Promise::state_of))]
    pub fn state(self) -> State
        ensures { result ≡ state_of self }
    {
        match self {
            Stepped::Done(s) | Stepped::Again(s) | Stepped::Refused(_, s) => s,
        }
    }
}

// Whose turn it is: the next step's, or once more the latest one's.
#[derive(Clone, Copy, Debug, PartialEq, Eq)]
enum Turn {
    Next,
    Again,
}

// What is checked before a step or a run: that the plan can run, and that the buffers are of their lengths.
pub(crate) fn ready(plan: Plan, state: State, lent: &Lent) -> Result<(), Refusal>
    ensures { number_in result ≡ ready_with plan state lent.now 0 }
{
    if !can_run(plan, state) {
        return Err(Refusal::Plan);
    }
    if !lent.fit(plan.geometry) {
        return Err(Refusal::Length);
    }
    Ok(())
}

// Whose turn it is when a step is asked, of so many. No sum is taken that could wrap.
#[tactic(auto, using(moving::proofs::Calls::past_turn, moving::proofs::Calls::next_turn, moving::proofs::Calls::again_turn, moving::proofs::Calls::apart_turn))]
fn whose_turn(all: u64, next: Step, asked: Step) -> Result<Turn, Refusal>
    ensures { number_told result ≡ turn_number all next.0 asked.0 }
{
    let s = asked.0;
    let n = next.0;
    if all <= s {
        return Err(Refusal::End);
    }
    if s == n {
        return Ok(Turn::Next);
    }
    if s + 1 == n {
        return Ok(Turn::Again);
    }
    Err(Refusal::Turn)
}

// Whose turn it is at a step call.
fn turn_asked(plan: Plan, state: State, asked: Step, lent: &Lent) -> Result<Turn, Refusal>
    ensures { number_told result ≡ ready_with plan state lent.now (turn_number (total (route_of plan)) state.next.0 asked.0) }
{
    ready(plan, state, lent)?;
    whose_turn(total_steps(plan), state.next, asked)
}

// The move of a step that the plan has.
fn move_asked(plan: Plan, asked: Step, lent: &mut Lent)
    requires { StepsReady plan asked.0 1 (bytes_in lent.old) }
    ensures same { SameLent lent.old lent.new }
    ensures moved { bytes_in lent.new ≡ move (route_of plan) asked.0 (bytes_in lent.old) }
{
    let t = Tables::of(plan, pass_of(plan, asked));
    move_step(t, asked, lent.area0, lent.area1, lent.memory);
}

// The next step, or the one before it again; else a refusal, which changes nothing. A call lends its buffers one by one; inside they are `Lent`.
pub fn step(
    plan: Plan,
    state: State,
    asked: Step,
    area0: &mut [u8],
    area1: &mut [u8],
    memory: &mut [u8],
) -> Stepped
    ensures { StepPromise plan (lent state area0.old area1.old memory.old) asked.0 result
        (buffers_of area0.new area1.new memory.new) }
{
    let mut lent = Lent {
        area0,
        area1,
        memory,
    };
    let turn = match turn_asked(plan, state, asked, &lent) {
        Ok(turn) => turn,
        Err(refusal) => return Stepped::Refused(refusal.number(), state.kept()),
    };
    move_asked(plan, asked, &mut lent);
    match turn {
        Turn::Next => Stepped::Done(state.advanced(1)),
        Turn::Again => Stepped::Again(state.kept()),
    }
}
