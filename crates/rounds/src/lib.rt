// The rounds of planning, step 3, on slices of columns.
#![tactic(auto)]

ghost use Rattle.std.specs.Prelude.{◌≡◌, ◌++◌, ◌<◌, ◌≤◌, ◌-◌, length, replicate, IfSome};
ghost use Rattle.std.specs.Option.{unwrap_or};
ghost use Rattle.bank.specs.Limits;
ghost use Rattle.algebra.specs.Search.{least_from};
ghost use Rattle.planning.specs.Columns.{phi, zero_column};
ghost use Rattle.planning.specs.Making.{busy, erases, round_left, round_pass, swaps};
ghost use Rattle.planning.specs.Inner.{RoundReady};

use bank::ROWS;
use elimination::echelon::Echelon;
use matrix::rows::{identity, product};
use matrix::vector::power;
use planner::columns::lower;

// The columns of a round's pass, E S, and of what is left.
#[derive(Clone, Copy)]
pub struct Rounded {
    pub pass: [u32; ROWS],
    pub cols: [u32; ROWS],
}

// Columns, b and m come one by one below, as `swaps` and `erases` (planning) take them, and the rows' limit stands in clauses, as in matrix.

// Whether column j of φ is zero.
fn is_zero(columns: &[u32], m: usize, j: usize) -> bool
    requires { (m ≤ length columns.now) × (m < Limits.ROWS) × (j < m) }
    ensures { result ≡ zero_column (phi m columns.now) j }
{
    columns[j] >> (m as u32) == 0
}

// Whether φ has nonzero columns.
pub fn is_busy(columns: &[u32], m: usize) -> bool
    requires { (m < length columns.now) × (length columns.now ≤ Limits.ROWS) }
    ensures { result ≡ busy m columns.now }
{
    (0..m).any(|j| !is_zero(columns, m, j))
}

// The first zero column of φ from column `from` on, if there is one.
fn next_zero(columns: &[u32], m: usize, from: usize) -> Option<usize>
    requires { (m ≤ length columns.now) × (m < Limits.ROWS) × (from ≤ m) }
    ensures first { unwrap_or result m ≡ least_from (zero_column (phi m columns.now)) (m - from) from }
    ensures below { IfSome result (λ y. y < m) }
{
    (from..m).find(|y| is_zero(columns, m, *y))
}

// S, for a matrix of these columns.
fn swaps(columns: &[u32], b: usize, m: usize) -> [u32; ROWS]
    requires { (b < m) × (m < length columns.now) × (length columns.now ≤ Limits.ROWS) }
    ensures { result ≡ swaps (length columns.now) b m columns.now ++ replicate (Limits.ROWS - length columns.now) 0 }
{
    let mut s = identity(columns.len());
    let mut from = b;
    for x in 0..b {
        if !is_zero(columns, m, x) {
            let Some(y) = next_zero(columns, m, from) else {
                return s;
            };
            s[x] = power(y as u32);
            s[y] = power(x as u32);
            from = y + 1;
        }
    }
    s
}

// E, for a matrix of these columns, which are swapped already. For a zero column the elimination uses nothing.
fn erases(columns: &[u32], b: usize, m: usize) -> [u32; ROWS]
    requires { (b < m) × (m < length columns.now) × (length columns.now ≤ Limits.ROWS) × RoundReady (length columns.now) m columns.now }
    ensures { result ≡ erases (length columns.now) b m columns.now ++ replicate (Limits.ROWS - length columns.now) 0 }
{
    let n = columns.len();
    let delta = lower(&columns[m..], m);
    let entries = Echelon::of(&delta[..n - m]);
    let mut e = identity(n);
    for j in b..m {
        let r = entries.reduce(columns[j] >> (m as u32), 0);
        e[j] = power(j as u32) ^ (r.tag << (m as u32));
    }
    e
}

// One round of a matrix of these columns.
pub fn round(columns: &[u32], b: usize, m: usize) -> Rounded
    requires { (b < m) × (m < length columns.now) × (length columns.now ≤ Limits.ROWS) × RoundReady (length columns.now) m columns.now }
    ensures pass { result.pass ≡ round_pass (length columns.now) b m columns.now ++ replicate (Limits.ROWS - length columns.now) 0 }
    ensures cols { result.cols ≡ round_left (length columns.now) b m columns.now ++ replicate (Limits.ROWS - length columns.now) 0 }
{
    let n = columns.len();
    let s = swaps(columns, b, m);
    let swapped = product(&s[..n], columns);
    let e = erases(&swapped[..n], b, m);
    let pass = product(&s[..n], &e[..n]);
    let cols = product(&e[..n], &swapped[..n]);
    Rounded { pass, cols }
}
