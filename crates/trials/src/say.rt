// A line of output: what was asked, and the numbers that came back.
// What was asked goes with the first number, and each further one by a call of its own, up to the first that fails: where a line can't be said
// whole, what stands before that number is said.
use std::io;

// Each program of the gate has its own: of what is printed a public one could promise nothing.
pub(crate) fn line(rt: &impl Print, asked: &str, numbers: &[u64]) -> io::Result<()> {
    let Some((first, further)) = numbers.split_first() else {
        return println!(rt; "{asked}:");
    };
    print!(rt; "{asked}: {first}")?;
    for number in further {
        print!(rt; " {number}")?;
    }
    println!(rt)
}
