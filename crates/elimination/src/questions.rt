// What one elimination answers. That there are at most ROWS rows stands in each clause, as in matrix.
ghost use Rattle.std.specs.Prelude.{◌≡◌, false, ◌++◌, ◌<◌, ◌≤◌, ◌-◌, ◌^◌, length, replicate};
ghost use Rattle.bank.specs.Limits;
ghost use Rattle.algebra.specs.Matrix.{kernel, singular, inverse, columns, spills};
ghost use Rattle.elimination.specs.Solved.{Swept, solved_for};

use crate::echelon::Echelon;
use crate::reduce::Reduced;
use bank::ROWS;
use matrix::rows::{apply, columns};
use matrix::vector::power;

// One elimination, up to the first column that is a sum of columns to its left: the entries of all columns; or the tag of that one, which is
// the least nonzero vector sent to zero: the columns before it have no sum that is zero.
fn sweep(rows: &[u32]) -> Result<Echelon, u32>
    requires { length rows.now ≤ Limits.ROWS }
    ensures { Swept (length rows.now) rows.now result }
{
    let n = rows.len();
    let cols = columns(rows, n);
    let mut entries = Echelon::new();
    for (j, column) in cols[..n].iter().enumerate() {
        let Reduced { left, tag } = entries.reduce(*column, power(j as u32));
        if left == 0 {
            return Err(tag);
        }
        entries.add(left, tag);
    }
    Ok(entries)
}

// The least nonzero vector that the rows, as many as columns, send to zero, 0 where there is none, as the definition has it.
pub fn kernel(rows: &[u32]) -> u32
    requires { length rows.now ≤ Limits.ROWS }
    ensures { result ≡ kernel (length rows.now) rows.now }
{
    sweep(rows).err().unwrap_or(0)
}

// Whether the rows send some nonzero vector to zero.
pub fn is_singular(rows: &[u32]) -> bool
    requires { length rows.now ≤ Limits.ROWS }
    ensures { result ≡ singular (length rows.now) rows.now }
{
    kernel(rows) != 0
}

// The address that the rows and c send to y, or the least nonzero vector that the rows send to zero: one elimination answers both.
pub fn solve(rows: &[u32], c: u32, y: u32) -> Result<u32, u32>
    requires { (length rows.now ≤ Limits.ROWS) × (c < 2 ^ length rows.now) × (y < 2 ^ length rows.now) }
    ensures { result ≡ solved_for (length rows.now) rows.now c y }
{
    match sweep(rows) {
        Ok(entries) => Ok(entries.reduce(y ^ c, 0).tag),
        Err(z) => Err(z),
    }
}

// The columns of the inverse of the rows; the places after them hold zero.
pub fn inverse_columns(rows: &[u32]) -> [u32; ROWS]
    requires { (length rows.now ≤ Limits.ROWS) × (singular (length rows.now) rows.now ≡ false) }
    ensures { result ≡ columns (length rows.now) (inverse (length rows.now) rows.now) ++ replicate (Limits.ROWS - length rows.now) 0 }
{
    let n = rows.len();
    let cols = columns(rows, n);
    let entries = Echelon::of(&cols[..n]);
    let mut out = [0; ROWS];
    for j in 0..n {
        out[j] = entries.reduce(power(j as u32), 0).tag;
    }
    out
}

// Whether some number below 2^m has zero parity against rows b..m-1 and odd parity against one of the rows from m on.
pub fn spills(rows: &[u32], b: usize, m: usize) -> bool
    requires { (b ≤ m) × (m ≤ length rows.now) × (length rows.now ≤ Limits.ROWS) }
    ensures { result ≡ spills b m rows.now }
{
    let cols = columns(&rows[b..m], m);
    let mut entries = Echelon::new();
    for (j, column) in cols[..m].iter().enumerate() {
        let Reduced { left, tag } = entries.reduce(*column, power(j as u32));
        if left == 0 && 0 < apply(&rows[m..], tag) {
            return true;
        }
        entries.grow(j as u32, *column);
    }
    false
}
