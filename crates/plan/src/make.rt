// The plan for an order. Rows are lent as slices, and their limit stands in the clauses, as in matrix.
ghost use Rattle.std.specs.Prelude.{◌≡◌, true, false, ◌&&◌, ◌++◌, ◌≤◌, ◌-◌, eqb, length, take, replicate};
ghost use Rattle.bank.specs.Limits;
ghost use Rattle.bank.specs.Geometry.{in_limits};
ghost use Rattle.algebra.specs.Matrix.{columns, is_identity, singular, after};
ghost use Rattle.planning.specs.Making.{passes_made};
ghost use Rattle.planning.specs.Stored.{plan_for, plan_of};
ghost use Rattle.plan.specs.Answer.{planned_for};

use bank::{Address, Geometry, ROWS};
use matrix::rows::{columns, identity, is_identity, product};
use order::Order;
use planner::operations::{Operated, operate};
use planning::Plan;
use rounds::{is_busy, round};
use store::{empty_plan, no_passes, with_pass};

// The number of a planning call, and its plan: the empty plan where refused, as `planned_for` has it. With 3, z; 0 with every other number.
#[derive(Clone, Copy)]
pub struct Planned {
    pub number: u8,
    pub plan: Plan,
    pub z: Address,
}

// The rows of A Q, from the columns of A and of Q; the places after them hold zero.
fn rows_after(a: &[u32], q: &[u32]) -> [u32; ROWS]
    requires { length q.now ≤ Limits.ROWS }
    ensures { result ≡ columns (length q.now) (after a.now q.now) ++ replicate (Limits.ROWS - length q.now) 0 }
{
    let n = q.len();
    let both = product(q, a);
    columns(&both[..n], n)
}

// The plan of the passes made of A and c: one for each round, the first after P⁻¹, which is P, and then what is left.
fn plan_made(g: Geometry, rows: &[u32], c: u32, blanks: bool) -> Plan
    requires { (in_limits g ≡ true) × (length rows.now ≡ g.n) × (singular g.n rows.now ≡ false) }
    ensures { result ≡ plan_of (record { geometry = g; blanks = blanks; passes = passes_made g rows.now c }) }
{
    let n = rows.len();
    let b = g.b as usize;
    let m = g.m as usize;
    let Operated { mut cols, p: mut q } = operate(rows, m);
    let mut plan = no_passes(g, blanks);
    let mut p = 0;
    // The matrix shows only as it is reduced how many rounds there are, so no range gives p.
    'rounds: while is_busy(&cols[..n], m) {
        let r = round(&cols[..n], b, m);
        plan = with_pass(plan, p, rows_after(&r.pass[..n], &q[..n]), 0);
        cols = r.cols;
        q = identity(n);
        p += 1;
    }
    with_pass(plan, p, rows_after(&cols[..n], &q[..n]), c)
}

// Whether A is the identity and c is 0: then no record need move.
fn is_still(rows: &[u32], c: u32) -> bool
    requires { length rows.now ≤ Limits.ROWS }
    ensures { result ≡ is_identity (length rows.now) rows.now && eqb c 0 }
{
    c == 0 && is_identity(rows)
}

// The plan of an order A, c that was judged and is taken: no passes where no record need move. It keeps whether to blank.
pub fn plan_for(g: Geometry, rows: [u32; ROWS], c: u32, blanks: bool) -> Plan
    requires { (in_limits g ≡ true) × (singular g.n (take g.n rows) ≡ false) }
    ensures { result ≡ plan_for g (take g.n rows) c blanks }
{
    let matrix = &rows[..g.n as usize];
    if is_still(matrix, c) {
        return no_passes(g, blanks);
    }
    plan_made(g, matrix, c, blanks)
}

// The plan for an order that is taken, which blanks the spent area or doesn't, and a number that says why where one isn't.
// It is made of a refusal here alone, so a `From` would be no shorter.
pub fn make_plan(order: Order, blanks: bool) -> Planned
    ensures { result ≡ planned_for order blanks }
{
    match order::check(order) {
        Ok(()) => Planned {
            number: 0,
            plan: plan_for(order.geometry, order.rows, order.complement, blanks),
            z: Address(0),
        },
        Err(refusal) => Planned {
            number: refusal.number(),
            plan: empty_plan(),
            z: refusal.z(),
        },
    }
}
