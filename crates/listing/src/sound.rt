// Which plans have a listing? Those that can run.
ghost use Rattle.std.specs.Prelude.{◌≡◌, true, false, ◌≤◌, MatchOption};
ghost use Rattle.bank.specs.Limits;
ghost use Rattle.planning.specs.Running.{sound};

use planning::Plan;
use running::is_sound;

// A plan that can run: so it has no more rows and passes than there is room for.
#[derive(Clone, Copy)]
pub(crate) struct Sound {
    pub(crate) plan: Plan,
    ghost runs: { sound plan ≡ true },
    ghost rows: { plan.geometry.n ≤ Limits.ROWS },
    ghost few: { plan.count ≤ Limits.PASSES },
}

impl Sound {
    // The same plan, where it can run.
    pub(crate) fn of(plan: Plan) -> Option<Sound>
        ensures { MatchOption result (sound plan ≡ false) (λ s. s.plan ≡ plan) }
    {
        if is_sound(plan) {
            Some(Sound { plan })
        } else {
            None
        }
    }
}
