// Steps 1 and 2 of planning: P, and A P. Columns and m come one by one, as the definitions take them, and the rows' limit stands in clauses, as in matrix.
ghost use Rattle.std.specs.Prelude.{◌≡◌, ◌++◌, ◌<◌, ◌≤◌, ◌+◌, ◌-◌, ◌/◌, ◌^◌, length, replicate};
ghost use Rattle.bank.specs.Limits;
ghost use Rattle.algebra.specs.Matrix.{columns, after};
ghost use Rattle.algebra.specs.Search.{which};
ghost use Rattle.planning.specs.Columns.{adding};
ghost use Rattle.planning.specs.Making.{partner, step1, step2, operations};
ghost use Rattle.planner.specs.Marks.{places_of, bare};

use crate::columns::lower;
use crate::marks::{bare, lowest_of, marks};
use bank::ROWS;
use elimination::echelon::Echelon;
use matrix::rows::{columns, product};
use matrix::vector::{power, unless_zero};

// The columns of A P and of P.
#[derive(Clone, Copy)]
pub struct Operated {
    pub cols: [u32; ROWS],
    pub p: [u32; ROWS],
}

// Some columns and then others; the places after them hold zero.
fn followed(first: &[u32], second: &[u32]) -> [u32; ROWS]
    requires { length first.now + length second.now ≤ Limits.ROWS }
    ensures { result ≡ (first.now ++ second.now) ++ replicate (Limits.ROWS - (length first.now + length second.now)) 0 }
{
    let mut both = [0; ROWS];
    let end = first.len() + second.len();
    both[..first.len()].copy_from_slice(first);
    both[first.len()..end].copy_from_slice(second);
    both
}

// The matrix that adds into each column of m..n that is not in the set one that is chosen, lowest with lowest, until one kind runs out.
// In the set, columns m..n stand first, and then columns 0..m: those of them that are in it are the chosen ones.
fn paired(set: u32, n: usize, m: usize) -> [u32; ROWS]
    requires { (m < n) × (n ≤ Limits.ROWS) × (set < 2 ^ n) × (0 < m) }
    ensures { result ≡ adding (partner (which (bare set m n) n 0) (places_of m (set / 2 ^ (n - m)))) n ++ replicate (Limits.ROWS - n) 0 }
{
    let mut out = [0; ROWS];
    let mut left = set >> ((n - m) as u32);
    for j in 0..n {
        let w = unless_zero(bare(set, m, n, j), lowest_of(left));
        out[j] = power(j as u32) ^ w;
        left ^= w;
    }
    out
}

// Step 1 as a matrix, for a matrix of these columns.
fn step1(columns: &[u32], m: usize) -> [u32; ROWS]
    requires { (0 < m) × (m < length columns.now) × (length columns.now ≤ Limits.ROWS) }
    ensures { result ≡ step1 (length columns.now) m columns.now ++ replicate (Limits.ROWS - length columns.now) 0 }
{
    let n = columns.len();
    let delta = lower(&columns[m..], m);
    let phi = lower(&columns[..m], m);
    let both = followed(&delta[..n - m], &phi[..m]);
    paired(marks(&both[..n]), n, m)
}

// Step 2 as a matrix, for a matrix of these columns.
fn step2(columns: &[u32], m: usize) -> [u32; ROWS]
    requires { (m < length columns.now) × (length columns.now ≤ Limits.ROWS) }
    ensures { result ≡ step2 (length columns.now) m columns.now ++ replicate (Limits.ROWS - length columns.now) 0 }
{
    let phi = lower(&columns[..m], m);
    let set = marks(&phi[..m]);
    let entries = Echelon::of(&phi[..m]);
    let mut out = [0; ROWS];
    for j in 0..columns.len() {
        let r = entries.reduce(phi[j], 0);
        out[j] = power(j as u32) ^ unless_zero(bare(set, 0, m, j), r.tag);
    }
    out
}

// A P and P, for the matrix A of these rows, as many as columns.
pub fn operate(rows: &[u32], m: usize) -> Operated
    requires { (0 < m) × (m < length rows.now) × (length rows.now ≤ Limits.ROWS) }
    ensures cols { result.cols ≡ after (columns (length rows.now) rows.now) (operations (length rows.now) m (columns (length rows.now) rows.now))
        ++ replicate (Limits.ROWS - length rows.now) 0 }
    ensures p { result.p ≡ operations (length rows.now) m (columns (length rows.now) rows.now) ++ replicate (Limits.ROWS - length rows.now) 0 }
{
    let n = rows.len();
    let a = columns(rows, n);
    let s1 = step1(&a[..n], m);
    let b = product(&s1[..n], &a[..n]);
    let s2 = step2(&b[..n], m);
    let p = product(&s2[..n], &s1[..n]);
    let cols = product(&p[..n], &a[..n]);
    Operated { cols, p }
}
