// Reads a list of targets from standard input, and writes n and the matrix and complement that give it, or one line that refuses it.
#![tactic(auto)]

use bank::Address;
use bank::refusal::Refusal;
use entries::answer::{FOUND, write_found};
use entries::read_entries;
use lists::recognise;
use std::io;
use streams::fill;
use writing::refusal::RefusalLine;

// The most entries that a list has here.
const ENTRIES: usize = 65536;

// The most bytes of its text, ten digits and LF an entry, and one by which to see that more came.
const TEXT: usize = ENTRIES * 11 + 1;

// The list is longer than the room for it.
fn no_room(rt: &(impl Print + Eprint)) -> io::Result<()> {
    rt.write_all(RefusalLine::of(Refusal::Length.number(), Address(0)).bytes())?;
    eprintln!(rt; "there is room for {ENTRIES} entries")
}

fn answer(rt: &(impl Print + Eprint), text: &[u8], list: &mut [u64]) -> io::Result<()> {
    let read = read_entries(text, list);
    if read.number == Refusal::Length.number() {
        return no_room(rt);
    }
    if read.number != 0 {
        return rt.write_all(RefusalLine::of(read.number, Address(0)).bytes());
    }
    let found = recognise(&list[..read.count]);
    if found.number != 0 {
        return rt.write_all(RefusalLine::of(found.number, found.z).bytes());
    }
    let mut room = [0u8; FOUND];
    let k = write_found(found, &mut room);
    rt.write_all(&room[..k])
}

// Standard input is read to its end, or until it is longer than the text of any list that has room.
// Lent by their types, the buffers need no proof of their lengths.
fn take_in(
    rt: &(impl Input + Print + Eprint),
    text: &mut [u8; TEXT],
    list: &mut [u64; ENTRIES],
) -> io::Result<()> {
    let came = fill(&mut rt.reader(), text);
    if came == TEXT {
        return no_room(rt);
    }
    answer(rt, &text[..came], list)
}

fn main(rt: HostRuntime) -> io::Result<()> {
    let mut text = [0u8; TEXT];
    let mut list = [0u64; ENTRIES];
    take_in(&rt, &mut text, &mut list)
}
