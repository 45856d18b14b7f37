// The lines on standard error, whose handle is `err`. Each piece of a line is handed over by a call of its own, up to the first that
// fails: where a line can't be said whole, what stands before that piece is said.
use crate::call::WrongCall;
use std::io;

// How to call it.
const CALL: &str =
    "tray ORDER [AGAIN] [blank] < RECORDS > TRAYS, where ORDER is a file with an order text and AGAIN a number of at most 10 digits";

pub(crate) fn wrong_call<E: Print>(err: &E, wrong: WrongCall) -> io::Result<()> {
    print!(err; "{wrong}")?;
    println!(err; ": {CALL}")
}

// The path goes there as bytes, since it need not be text.
pub(crate) fn not_opened<E: Print>(err: &E, path: &[u8]) -> io::Result<()> {
    err.write_all(path)?;
    print!(err; " can't be opened")?;
    println!(err; ": {CALL}")
}

pub(crate) fn not_blanked<E: Print>(err: &E, what: &str) -> io::Result<()> {
    print!(err; "{what}")?;
    println!(err; " isn't zero in every byte")
}

pub(crate) fn no_room<E: Print>(err: &E, size: u64, area: usize, memory: usize) -> io::Result<()> {
    print!(err; "the run has ")?;
    print!(err; "{size}")?;
    print!(err; " bytes and doesn't fit: tray has ")?;
    print!(err; "{area}")?;
    print!(err; " bytes an area and ")?;
    print!(err; "{memory}")?;
    println!(err; " bytes of memory")
}
