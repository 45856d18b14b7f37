// The matrix and complement of a list that is an order's are written.
ghost use Rattle.std.specs.Prelude.{◌≡◌, ◌++◌, ◌≤◌, length, take, drop};
ghost use Rattle.entries.specs.FoundText.{found_text};

use bank::ROWS;
use lists::Recognised;
use writing::write::{put_line, put_row, put_rows};

// As many bytes as are ever written: n has at most two digits, and then come at most ROWS + 1 lines of at most ROWS + 1 bytes.
pub const FOUND: usize = 3 + (ROWS + 1) * (ROWS + 1);

// n, the n rows and c; and how many bytes they have.
pub fn write_found(found: Recognised, room: &mut [u8; FOUND]) -> usize
    ensures { (result ≡ length (found_text found)) × (result ≤ length room.new) × (result ≡ length (take result room.new))
        × (room.new ≡ found_text found ++ drop (length (found_text found)) room.old) }
{
    let n = found.n as usize;
    if ROWS < n {
        return 0;
    }
    let i = put_line(room, 0, b"", u64::from(found.n));
    let j = put_rows(room, i, &found.rows[..n]);
    put_row(room, j, found.complement, n)
}
