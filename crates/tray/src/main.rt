// tray ORDER [AGAIN] [blank] < RECORDS > TRAYS: the order text in the file ORDER, the run on standard input, and the run in tray order on
// standard output. With `blank` the spent area is blanked, and what is left of the run is looked for.
// What decides is `delivery::deliver`; here are the words, the files and the buffers.
#![tactic(auto)]

mod say; // say.rt: the lines on standard error
mod call; // call.rt: the words of the call

use crate::call::{Call, read_call};
use copying::look::all_zero;
use delivery::{Delivery, deliver};
use reading::text_room;
use sending::progress::Progress;
use std::io;
use std::io::IsTerminal;
use std::rt::{Env, Files};
use streams::{WORD, fill, say_failed, word};
use writing::refusal::RefusalLine;

// The most bytes of a run, and of its memory, which has at most half as many records.
const AREA: usize = 2097152;

const MEMORY: usize = AREA / 2;

// A run, and one byte by which to see that more came.
const INPUT: usize = AREA + 1;

// A line for each pass, or on a terminal one line that is written over.
fn how_to_say<E: IsTerminal>(err: &E) -> Progress {
    if err.is_terminal() {
        return Progress::Rewritten;
    }
    Progress::Lines
}

// Says that no byte of the run is left in the other area and in memory, after a look at every byte of them.
fn look<E: Print>(err: &E, spare: &[u8], memory: &[u8]) -> io::Result<()> {
    if !all_zero(spare) {
        return say::not_blanked(err, "the other area");
    }
    if !all_zero(memory) {
        return say::not_blanked(err, "the memory");
    }
    println!(err; "the other area and the memory are zero in every byte")
}

// The run as it came in goes out in tray order, or nothing does.
// The three buffers are passed on one by one, as `deliver` takes them: a struct would only be taken apart again.
fn answer<R: Print + Eprint + Alloc, E: Print + Eprint + IsTerminal>(
    rt: &R,
    err: &E,
    text: &[u8],
    call: Call,
    run: &mut [u8],
    spare: &mut [u8],
    memory: &mut [u8],
) -> io::Result<()> {
    let Call { again, blanks } = call;
    let progress = how_to_say(err);
    match deliver(err, text, blanks, again, progress, run, spare, memory) {
        Delivery::Done => {
            if let Err(error) = rt.write_all(run) {
                say_failed(rt, b"standard output", error)?;
            }
            if blanks {
                return look(err, spare, memory);
            }
            Ok(())
        }
        Delivery::Refused(number, z) => err.write_all(RefusalLine::of(number, z).bytes()),
        Delivery::NoRoom(size) => say::no_room(err, size, AREA, MEMORY),
    }
}

// The text in the file that the first word names, and the run: standard input is read to its end, or until it is longer than any run that has room.
fn take_in<R: Env + Files + Input + Print + Eprint + Alloc, E: Print + Eprint + IsTerminal>(
    rt: &R,
    err: &E,
    call: Call,
    run: &mut [u8],
    spare: &mut [u8],
    memory: &mut [u8],
) -> io::Result<()> {
    let mut path = [0u8; WORD];
    let name = word(rt, 1, &mut path);
    let Ok(mut order) = streams::open(rt, name) else {
        return say::not_opened(err, name);
    };
    let mut text = text_room();
    let n = fill(&mut order, &mut text);
    let came = fill(&mut rt.reader(), run);
    answer(rt, err, &text[..n], call, &mut run[..came], spare, memory)
}

// Lent by their types, the buffers need no proof of their lengths.
fn start<R: Env + Files + Input + Print + Eprint + Alloc, E: Print + Eprint + IsTerminal>(
    rt: &R,
    err: &E,
    run: &mut [u8; INPUT],
    spare: &mut [u8; AREA],
    memory: &mut [u8; MEMORY],
) -> io::Result<()> {
    match read_call(rt) {
        Ok(call) => take_in(rt, err, call, run, spare, memory),
        Err(wrong) => say::wrong_call(err, wrong),
    }
}

fn main(rt: HostRuntime) -> io::Result<()> {
    let mut run = [0u8; INPUT];
    let mut spare = [0u8; AREA];
    let mut memory = [0u8; MEMORY];
    start(&rt, &rt.stderr(), &mut run, &mut spare, &mut memory)
}
