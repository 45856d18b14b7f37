// Is the mover of which the demands speak the one that the code is? Each call once more, with the promise of `ours`.
// None of these is called: that they are proved, with nothing written for it, is their use.
#![tactic(auto)]

ghost use Rattle.std.specs.Prelude.{◌≡◌};
ghost use Rattle.moving.specs.Step.{buffers_of};
ghost use Rattle.moving.specs.Call.{lent};
ghost use Rattle.addresses.specs.Answered.{answer_of};
ghost use Rattle.demands.specs.Ours.{ours};

use addresses::Target;
use bank::refusal::Refusal;
use bank::{Address, Step};
use lists::Recognised;
use mover::run::Ran;
use mover::step::Stepped;
use order::{Order, Verdict};
use plan::make::Planned;
use planning::Plan;
use planning::state::State;
use reading::Read;

fn judge(order: Order) -> Verdict
    ensures { result ≡ ours.judges order }
{
    order::judge(order)
}

fn target_of(order: Order, x: Address) -> Target
    ensures { result ≡ ours.sends order x.0 }
{
    addresses::target_of(order, x)
}

fn source_of(order: Order, y: Address) -> Result<Address, Refusal>
    ensures { ours.finds order y.0 (answer_of result) }
{
    addresses::source_of(order, y)
}

fn recognise(list: &[u64]) -> Recognised
    ensures { result ≡ ours.recognises list.now }
{
    lists::recognise(list)
}

fn make_plan(order: Order, blanks: bool) -> Planned
    ensures { result ≡ ours.plans order blanks }
{
    plan::make::make_plan(order, blanks)
}

fn total_steps(plan: Plan) -> u64
    ensures { result ≡ ours.total plan }
{
    totals::total_steps(plan)
}

fn result_area(plan: Plan) -> u32
    ensures { result ≡ ours.area plan }
{
    totals::result_area(plan)
}

fn fresh() -> State
    ensures { result ≡ ours.fresh }
{
    State::fresh()
}

fn step(
    plan: Plan,
    state: State,
    asked: Step,
    area0: &mut [u8],
    area1: &mut [u8],
    memory: &mut [u8],
) -> Stepped
    ensures { ours.step plan (lent state area0.old area1.old memory.old) asked.0 result
        (buffers_of area0.new area1.new memory.new) }
{
    mover::step::step(plan, state, asked, area0, area1, memory)
}

fn run(
    plan: Plan,
    state: State,
    allowance: u64,
    area0: &mut [u8],
    area1: &mut [u8],
    memory: &mut [u8],
) -> Ran
    ensures { ours.run plan (lent state area0.old area1.old memory.old) allowance result
        (buffers_of area0.new area1.new memory.new) }
{
    mover::run::run(plan, state, allowance, area0, area1, memory)
}

fn read_order(text: &[u8]) -> Read
    ensures { ours.reads text.now result.number result.order result.z.0 }
{
    reading::read_order(text)
}

fn write_listing(plan: Plan, room: &mut [u8]) -> usize
    ensures { (result ≡ ours.lists plan room.old) × (room.new ≡ ours.leaves plan room.old) }
{
    listing::write_listing(plan, room)
}
