// What came back: the number, n, the rows, c and z of an answer; or numbers that were counted.
// Each piece of a line is handed over by a call of its own, up to the first that fails: where a line can't be said whole, what stands before
// that piece is said.
use lists::Recognised;
use std::io;

fn number(rt: &impl Print, k: u64) -> io::Result<()> {
    print!(rt; " {k}")
}

// Each program of the gate has its own: of what is printed a public one could promise nothing.
pub(crate) fn line(rt: &impl Print, asked: &str, numbers: &[u64]) -> io::Result<()> {
    print!(rt; "{asked}:")?;
    for k in numbers {
        number(rt, *k)?;
    }
    println!(rt)
}

pub(crate) fn answer(rt: &impl Print, asked: &str, r: Recognised) -> io::Result<()> {
    print!(rt; "{asked}: number")?;
    number(rt, u64::from(r.number))?;
    print!(rt; ", n")?;
    number(rt, u64::from(r.n))?;
    print!(rt; ", rows")?;
    for row in r.rows.iter().take(r.n as usize) {
        number(rt, u64::from(*row))?;
    }
    print!(rt; ", c")?;
    number(rt, u64::from(r.complement))?;
    print!(rt; ", z")?;
    number(rt, r.z.0)?;
    println!(rt)
}
