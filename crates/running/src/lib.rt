// Can a plan run, whoever made it?
#![tactic(auto)]

ghost use Rattle.std.specs.Prelude.{◌≡◌, true, not, Bool, List, ℕ, ◌&&◌, ◌||◌, ◌<◌, ◌≤◌, ◌*◌, ◌/◌, ◌%◌, eqb, leb, get_or, length, take, drop};
ghost use Rattle.std.specs.Fn.{FnReturnsAt};
ghost use Rattle.bank.specs.Limits;
ghost use Rattle.algebra.specs.Search.{any_below};
ghost use Rattle.bank.specs.Geometry.{in_limits};
ghost use Rattle.planning.specs.Running.{count_in_limits, stray_row, stray_complement, spare_row, spare_complement, singular_pass, spilling_pass, sound, can_run};

use bank::{PLACES, ROWS};
use elimination::questions::{is_singular, spills};
use order::form::{spare, stray};
use planning::Plan;
use planning::state::State;
use totals::{size_in_limits, total_steps};

// Whether one of the used passes, of n rows each, passes the test.
fn any_pass<F: Fn(&[u32]) -> bool>(rows: &[u32; PLACES], count: usize, n: usize, test: F) -> bool
    requires few { (count ≤ Limits.PASSES) × (n ≤ Limits.ROWS) }
    requires callable { (pass : _) → length pass.now ≡ n → F.pre test pass }
    ensures { (asked : List ℕ → Bool) → ((pass : List ℕ) (answer : Bool) → FnReturnsAt F.Fn test pass answer → answer ≡ asked pass)
        → result ≡ any_below (λ p. asked (take n (drop (p * Limits.ROWS) rows.now))) count }
{
    for p in 0..count {
        let o = p * ROWS;
        if test(&rows[o..o + n]) {
            return true;
        }
    }
    false
}

// Whether a place for a row that is meant to be zero isn't: its pass isn't used, or its row is n or above. The array is looked at whole.
fn spare_rows(rows: &[u32; PLACES], count: usize, n: usize) -> bool
    ensures { result ≡ any_below (λ q. (leb count (q / Limits.ROWS) || leb n (q % Limits.ROWS)) && not (eqb (get_or rows.now q 0) 0)) (Limits.PASSES * Limits.ROWS) }
{
    for (q, row) in rows.iter().enumerate() {
        if *row != 0 && (count <= q / ROWS || n <= q % ROWS) {
            return true;
        }
    }
    false
}

// The four that follow take a plan whose size is inside the limits, which `is_sound` asks first: a type for it would be made for that one call.

// Whether a bit is at n or above in a used row or complement.
fn has_stray(plan: Plan) -> bool
    requires { in_limits plan.geometry && count_in_limits plan ≡ true }
    ensures { result ≡ stray_row plan || stray_complement plan }
{
    let count = plan.count as usize;
    let n = plan.geometry.n as usize;
    let size = bank::power(plan.geometry.n);
    any_pass(&plan.rows, count, n, |pass| stray(pass, size))
        || stray(&plan.complements[..count], size)
}

// Whether a place meant to be zero isn't.
fn has_spare(plan: Plan) -> bool
    requires { in_limits plan.geometry && count_in_limits plan ≡ true }
    ensures { result ≡ spare_row plan || spare_complement plan }
{
    let count = plan.count as usize;
    let n = plan.geometry.n as usize;
    spare_rows(&plan.rows, count, n) || spare(&plan.complements, count)
}

// Whether the plan isn't stored as it must be: a stray bit, or a place meant to be zero that isn't.
fn badly_stored(plan: Plan) -> bool
    requires { in_limits plan.geometry && count_in_limits plan ≡ true }
    ensures { result ≡ stray_row plan || stray_complement plan || spare_row plan || spare_complement plan }
{
    has_stray(plan) || has_spare(plan)
}

// Whether a used pass is singular or spills.
fn badly_made(plan: Plan) -> bool
    requires { in_limits plan.geometry && count_in_limits plan ≡ true }
    ensures { result ≡ singular_pass plan || spilling_pass plan }
{
    let count = plan.count as usize;
    let n = plan.geometry.n as usize;
    let b = plan.geometry.b as usize;
    let m = plan.geometry.m as usize;
    any_pass(&plan.rows, count, n, is_singular)
        || any_pass(&plan.rows, count, n, |pass| spills(pass, b, m))
}

// Whether the plan is one that can run, leaving the state aside.
pub fn is_sound(plan: Plan) -> bool
    ensures { result ≡ sound plan }
{
    size_in_limits(plan) && !badly_stored(plan) && !badly_made(plan)
}

// Whether the plan can run from the state's next step on.
pub fn can_run(plan: Plan, state: State) -> bool
    ensures { result ≡ can_run plan state }
{
    is_sound(plan) && state.next.0 <= total_steps(plan)
}
