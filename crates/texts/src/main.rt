// Reads the order texts that the arguments name, and writes for each its name and what `list` would write.
#![tactic(auto)]

use listing::{ROOM, list_plan, listing_size};
use plan::make::make_plan;
use reading::{read_order, text_room};
use std::io;
use std::rt::{Env, Files};
use streams::{WORD, fill, say_failed, word, word_count};
use writing::refusal::RefusalLine;

fn answer(rt: &impl Print, text: &[u8]) -> io::Result<()> {
    let read = read_order(text);
    if read.number != 0 {
        return rt.write_all(RefusalLine::of(read.number, read.z).bytes());
    }
    let planned = make_plan(read.order, false);
    let mut room = [0u8; ROOM];
    let k = list_plan(planned.plan, &mut room);
    if k != listing_size(planned.plan) {
        return println!(rt; "listing of another size");
    }
    rt.write_all(&room[..k])
}

// The text in the file that the argument names.
fn one(rt: &(impl Env + Files + Print + Eprint + Alloc), which: usize) -> io::Result<()> {
    let mut path = [0u8; WORD];
    let name = word(rt, which, &mut path);
    rt.write_all(name)?;
    println!(rt)?;
    let mut file = match streams::open(rt, name) {
        Ok(file) => file,
        Err(error) => return say_failed(rt, name, error),
    };
    let mut buffer = text_room();
    let n = fill(&mut file, &mut buffer);
    answer(rt, &buffer[..n])
}

fn main(rt: HostRuntime) -> io::Result<()> {
    for k in 1..word_count(&rt) {
        one(&rt, k)?;
    }
    Ok(())
}
