// Which pass, load, phase and tier is a step?
ghost use Rattle.std.specs.Prelude.{◌≡◌, true, ◌<◌};
ghost use Rattle.planning.specs.Stored.{route_of};
ghost use Rattle.moving.specs.Number.{pass_of};
ghost use Rattle.tables.specs.Pace.{pace_of, phase_at, standing_at};
ghost use Rattle.bank.specs.Geometry.{in_limits};

use bank::{Step, power};
use planning::{Phase, Plan};
use totals::phases;

// How a plan's step numbers are taken apart: the steps of a phase, of a memoryload, of a pass.
#[derive(Clone, Copy, Debug, PartialEq, Eq)]
pub struct Pace {
    pub phase: u64,
    pub load: u64,
    pub pass: u64,
}

// Where in its pass a step stands: its memoryload, its phase there, and which tier of its load.
#[derive(Clone, Copy, Debug, PartialEq, Eq)]
pub struct Standing {
    pub load: u64,
    pub phase: Phase,
    pub tier: u64,
}

impl Pace {
    // The pace of a plan's steps.
    #[tactic(auto, using(bank::proofs::Limits::limits))]
    pub fn of(plan: Plan) -> Pace
        requires { in_limits plan.geometry ≡ true }
        ensures { result ≡ pace_of (route_of plan) }
    {
        let g = plan.geometry;
        let kinds = phases(plan);
        let stripe = power(g.b) * power(g.d);
        let each = power(g.m) / stripe;
        Pace {
            phase: each,
            load: kinds * each,
            pass: kinds * power(g.n) / stripe,
        }
    }

    // Where in its pass a step stands, at this pace.
    pub fn standing(self, s: Step) -> Standing
        requires { (0 < self.phase) × (0 < self.load) × (0 < self.pass) }
        ensures { result ≡ standing_at self s.0 }
    {
        let rest = s.0 % self.pass;
        let left = rest % self.load;
        Standing {
            load: rest / self.load,
            phase: phase_at(left / self.phase),
            tier: left % self.phase,
        }
    }
}

// The pass of a step.
pub fn pass_of(plan: Plan, s: Step) -> u64
    requires { in_limits plan.geometry ≡ true }
    ensures { result ≡ pass_of (route_of plan) s.0 }
{
    s.0 / Pace::of(plan).pass
}

// The phase at place k of a memoryload's.
#[tactic(auto, unfolding(crate::specs::Pace::phase_at))]
fn phase_at(k: u64) -> Phase
    ensures { result ≡ phase_at k }
{
    match k {
        0 => Phase::Reads,
        1 => Phase::Writes,
        _ => Phase::Blanks,
    }
}
