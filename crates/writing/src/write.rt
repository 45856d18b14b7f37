// Words, numbers and rows are written at a place of a room that has the space. Room and place come one by one, as `Wrote` takes them.
ghost use Rattle.std.specs.Prelude.{◌≡◌, ◌++◌, ◌+◌, ◌^◌, ◌<◌, ◌≤◌, length};
ghost use Rattle.bank.specs.Limits;
ghost use Rattle.text.specs.Lines.{line, decimal, bits, row_lines};
ghost use Rattle.writing.specs.Written.{Wrote};

// How many digits a number has.
fn decimal_size(v: u64) -> usize
    ensures { result ≡ length (decimal v) }
{
    let mut k = 1;
    let mut x = v;
    // The number shrinks until one digit is left; no range says when.
    while 10 <= x {
        x /= 10;
        k += 1;
    }
    k
}

// How many bytes a line of a word and a number has.
pub fn line_size(word: &[u8], v: u64) -> usize
    requires { length word.now < 2 ^ 32 }
    ensures { result ≡ length (line (word.now ++ decimal v)) }
{
    word.len() + decimal_size(v) + 1
}

// A number, last digit first.
fn put_decimal(room: &mut [u8], at: usize, v: u64) -> usize
    requires { at + length (decimal v) ≤ length room.old }
    ensures { Wrote room.old at (decimal v) room.new result }
{
    let end = at + decimal_size(v);
    let mut x = v;
    for i in (at..end).rev() {
        room[i] = b'0' + (x % 10) as u8;
        x /= 10;
    }
    end
}

fn put_word(room: &mut [u8], at: usize, word: &[u8]) -> usize
    requires { at + length word.now ≤ length room.old }
    ensures { Wrote room.old at word.now room.new result }
{
    let end = at + word.len();
    room[at..end].copy_from_slice(word);
    end
}

// A line of a word and a number.
pub fn put_line(room: &mut [u8], at: usize, word: &[u8], v: u64) -> usize
    requires { at + length (line (word.now ++ decimal v)) ≤ length room.old }
    ensures { Wrote room.old at (line (word.now ++ decimal v)) room.new result }
{
    let p = put_word(room, at, word);
    let q = put_decimal(room, p, v);
    room[q] = b'\n';
    q + 1
}

// n bits as characters, bit 0 first.
fn put_bits(room: &mut [u8], at: usize, v: u32, n: usize) -> usize
    requires { at + n ≤ length room.old }
    ensures { Wrote room.old at (bits n v) room.new result }
{
    let mut x = v;
    for i in 0..n {
        room[at + i] = b'0' + (x % 2) as u8;
        x /= 2;
    }
    at + n
}

// A row as a line.
pub fn put_row(room: &mut [u8], at: usize, v: u32, n: usize) -> usize
    requires { at + (n + 1) ≤ length room.old }
    ensures { Wrote room.old at (line (bits n v)) room.new result }
{
    let p = put_bits(room, at, v, n);
    room[p] = b'\n';
    p + 1
}

// Rows of as many bits as there are rows, a line for each.
pub fn put_rows(room: &mut [u8], at: usize, rows: &[u32]) -> usize
    requires { (length rows.now ≤ Limits.ROWS) × (at + length (row_lines (length rows.now) rows.now) ≤ length room.old) }
    ensures { Wrote room.old at (row_lines (length rows.now) rows.now) room.new result }
{
    let mut p = at;
    for row in rows {
        p = put_row(room, p, *row, rows.len());
    }
    p
}
