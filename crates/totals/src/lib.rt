// How many steps has a plan, and where does its result lie?
#![tactic(auto)]

ghost use Rattle.std.specs.Prelude.{◌≡◌, ◌&&◌, length};
ghost use Rattle.bank.specs.Geometry.{in_limits};
ghost use Rattle.planning.specs.Pass.{phases};
ghost use Rattle.planning.specs.Stored.{route_of};
ghost use Rattle.planning.specs.Running.{count_in_limits};
ghost use Rattle.totals.specs.Total.{total_steps, result_area};

use bank::PASSES;
use planning::{Phase, Plan};

// Whether the geometry and the number of passes are inside the limits.
pub fn size_in_limits(plan: Plan) -> bool
    ensures { result ≡ in_limits plan.geometry && count_in_limits plan }
{
    bank::in_limits(plan.geometry) && plan.count <= PASSES as u32
}

// How many phases a memoryload of the plan has.
pub fn phases(plan: Plan) -> u64
    ensures { result ≡ length (phases (route_of plan)) }
{
    if plan.blanks {
        let all = [Phase::Reads, Phase::Writes, Phase::Blanks];
        return all.len() as u64;
    }
    let all = [Phase::Reads, Phase::Writes];
    all.len() as u64
}

// The steps of a pass times the passes; 0 where the geometry or the count is outside the limits.
pub fn total_steps(plan: Plan) -> u64
    ensures { result ≡ total_steps plan }
{
    if !size_in_limits(plan) {
        return 0;
    }
    let size = bank::power(plan.geometry.n);
    let block = bank::power(plan.geometry.b);
    let drives = bank::power(plan.geometry.d);
    phases(plan) * size / (block * drives) * u64::from(plan.count)
}

// The area where the result lies.
pub fn result_area(plan: Plan) -> u32
    ensures { result ≡ result_area plan }
{
    plan.count % 2
}
