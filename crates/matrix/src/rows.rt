// A matrix as a slice of rows, applied and taken apart. That a slice has at most ROWS rows stands in each clause: a type for it would have to be made
// anew of every part that is lent.
ghost use Rattle.std.specs.Prelude.{◌≡◌, ◌++◌, ◌≤◌, ◌-◌, length, replicate};
ghost use Rattle.bank.specs.Limits;
ghost use Rattle.algebra.specs.Matrix.{after, applied, columns, identity, is_identity};

use crate::vector::{parity, power, sum};
use bank::ROWS;

// The rows applied to x.
pub fn apply(rows: &[u32], x: u32) -> u32
    requires { length rows.now ≤ Limits.ROWS }
    ensures { result ≡ applied rows.now x }
{
    let mut y = 0;
    for row in rows.iter().rev() {
        y = y * 2 + parity(row & x);
    }
    y
}

// The first n columns of the rows; the places after them hold zero.
pub fn columns(rows: &[u32], n: usize) -> [u32; ROWS]
    requires { (length rows.now ≤ Limits.ROWS) × (n ≤ Limits.ROWS) }
    ensures { result ≡ columns n rows.now ++ replicate (Limits.ROWS - n) 0 }
{
    let mut cols = [0; ROWS];
    for j in 0..n {
        cols[j] = apply(rows, power(j as u32));
    }
    cols
}

// The product of two matrices: a row for each of a, the sum of the rows of b that it picks; the places after them hold zero.
pub fn product(a: &[u32], b: &[u32]) -> [u32; ROWS]
    requires { length a.now ≤ Limits.ROWS }
    ensures { result ≡ after b.now a.now ++ replicate (Limits.ROWS - length a.now) 0 }
{
    let mut rows = [0; ROWS];
    for (i, picks) in a.iter().enumerate() {
        rows[i] = sum(b, *picks);
    }
    rows
}

// The identity of n rows; the places after them hold zero.
pub fn identity(n: usize) -> [u32; ROWS]
    requires { n ≤ Limits.ROWS }
    ensures { result ≡ identity n ++ replicate (Limits.ROWS - n) 0 }
{
    let mut rows = [0; ROWS];
    for i in 0..n {
        rows[i] = power(i as u32);
    }
    rows
}

// Whether the rows are those of the identity.
pub fn is_identity(rows: &[u32]) -> bool
    requires { length rows.now ≤ Limits.ROWS }
    ensures { result ≡ is_identity (length rows.now) rows.now }
{
    for (i, row) in rows.iter().enumerate() {
        if *row != power(i as u32) {
            return false;
        }
    }
    true
}
