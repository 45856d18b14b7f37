// Rows of bits are read at a place of a text. Their number n is a geometry's, of which `in_limits` was asked, so its limit stands in each clause.
ghost use Rattle.std.specs.Prelude.{◌≤◌};
ghost use Rattle.bank.specs.Limits;
ghost use Rattle.reading.specs.Found.{RowAt, RowsAt};

use crate::number::digit_at;
use bank::ROWS;

// A line of n characters 0 or 1, bit 0 first, and the place past it.
pub(crate) fn row_at(text: &[u8], at: usize, n: usize) -> Option<(u32, usize)>
    requires { n ≤ Limits.ROWS }
    ensures { RowAt text.now at n result }
{
    let len = text.len();
    if len <= at || len - at <= n {
        return None;
    }
    let end = at + n;
    if text[end] != b'\n' {
        return None;
    }
    let mut v = 0;
    for i in (0..n).rev() {
        let d = digit_at(text, at + i)?;
        if 1 < d {
            return None;
        }
        v = v * 2 + d;
    }
    Some((v, end + 1))
}

// n lines of n characters: the rows, with 0 in the places beyond them, and the place past the lines.
pub(crate) fn rows_at(text: &[u8], at: usize, n: usize) -> Option<([u32; ROWS], usize)>
    requires { n ≤ Limits.ROWS }
    ensures { RowsAt text.now at n result }
{
    let mut rows = [0; ROWS];
    let mut p = at;
    for row in &mut rows[..n] {
        (*row, p) = row_at(text, p, n)?;
    }
    Some((rows, p))
}
