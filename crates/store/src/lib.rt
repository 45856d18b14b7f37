// Plans as they are stored: empty, a pass put in, a pass taken out.
#![tactic(auto)]

ghost use Rattle.std.specs.Prelude.{◌≡◌, [], ◌<◌, ◌*◌, take, drop};
ghost use Rattle.bank.specs.Limits;
ghost use Rattle.planning.specs.Stored.{empty_plan, plan_of};
ghost use Rattle.store.specs.Store.{with_pass};

use bank::{Geometry, PASSES, PLACES, ROWS};
use planning::Plan;

// Zero everywhere, and nothing to blank. The rules bind a plan's form: one flat array of rows and an array of complements.
pub fn empty_plan() -> Plan
    ensures { result ≡ empty_plan }
{
    Plan {
        geometry: Geometry {
            n: 0,
            b: 0,
            d: 0,
            m: 0,
            r: 0,
        },
        blanks: false,
        count: 0,
        rows: [0; PLACES],
        complements: [0; PASSES],
    }
}

// A plan with no passes.
pub fn no_passes(g: Geometry, blanks: bool) -> Plan
    ensures { result ≡ plan_of (record { geometry = g; blanks = blanks; passes = [] }) }
{
    Plan {
        geometry: g,
        blanks,
        ..empty_plan()
    }
}

// The rows of pass p, in the room that they have.
pub fn pass_rows(rows: &[u32; PLACES], p: usize) -> [u32; ROWS]
    requires { p < Limits.PASSES }
    ensures { result ≡ take Limits.ROWS (drop (p * Limits.ROWS) rows.now) }
{
    let mut out = [0; ROWS];
    out.copy_from_slice(&rows[p * ROWS..(p + 1) * ROWS]);
    out
}

// The plan with pass p, the last so far.
pub fn with_pass(mut plan: Plan, p: usize, rows: [u32; ROWS], complement: u32) -> Plan
    requires { p < Limits.PASSES }
    ensures { result ≡ with_pass plan p rows complement }
{
    plan.rows[p * ROWS..(p + 1) * ROWS].copy_from_slice(&rows);
    plan.complements[p] = complement;
    plan.count = p as u32 + 1;
    plan
}
