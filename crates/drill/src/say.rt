// Lines on standard output. Each piece of a line is handed over by a call of its own, up to the first that fails: where a line can't be
// said whole, what stands before that piece is said.
use matrix::vector::bit_of;
use std::fmt::Display;
use std::io;

// A number, and the words before it.
pub(crate) fn number<R: Print, N: Display + Drop>(rt: &R, before: &str, n: N) -> io::Result<()> {
    rt.print(before)?;
    rt.print(n)
}

// Bits 0 to n - 1 of a vector as an order text has them: bit 0 first.
pub(crate) fn bits<R: Print>(rt: &R, vector: u32, n: u32) -> io::Result<()> {
    for q in 0..n {
        rt.print(bit_of(vector, q))?;
    }
    Ok(())
}

// The first n rows of a matrix, a line for each.
pub(crate) fn rows<R: Print>(rt: &R, rows: &[u32], n: u32) -> io::Result<()> {
    for (i, row) in rows.iter().take(n as usize).enumerate() {
        number(rt, "  row ", i)?;
        print!(rt; ": ")?;
        bits(rt, *row, n)?;
        println!(rt)?;
    }
    Ok(())
}
