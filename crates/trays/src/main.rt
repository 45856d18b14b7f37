// Makes the deliveries that the arguments name, four words each: an order text, a run, how often each step is sent again, and `blank` where the
// spent area is to be blanked or `keep` where it isn't.
// Writes for each its words, and then the run in tray order, or the line that says why there is none; after a run with `blank`, how much is zero.
#![tactic(auto)]

mod spent; // spent.rt: the other area and the memory, before a delivery and after it

ghost use Rattle.std.specs.Io.{ReadsAtMost};

use crate::spent::{MARK, zeros};
use delivery::{Delivery, deliver};
use reading::text_room;
use sending::progress::Progress;
use std::io;
use std::rt::{Env, Files};
use streams::{WORD, fill, say_failed, word, word_count};
use words::{is_word, read_number};
use writing::refusal::RefusalLine;

// The most bytes of a run and of its memory, and a run with one byte by which to see that more came.
const AREA: usize = 65536;

const MEMORY: usize = AREA / 2;

const INPUT: usize = AREA + 1;

// The file that an argument names, read to its end or until there is no room: how many bytes came.
fn file<R: Env + Files + Print + Eprint + Alloc>(
    rt: &R,
    which: usize,
    into: &mut [u8],
) -> io::Result<usize>
    ensures { ReadsAtMost result into.new }
{
    let mut path = [0u8; WORD];
    let name = word(rt, which, &mut path);
    rt.write_all(name)?;
    print!(rt; " ")?;
    match streams::open(rt, name) {
        Ok(mut opened) => Ok(fill(&mut opened, into)),
        Err(error) => {
            say_failed(rt, name, error)?;
            Ok(0)
        }
    }
}

// How much is zero after a delivery that blanks. Both were marked whole, so the counts tell a byte too many that was blanked as they tell one too
// few. Each piece of the line is handed over by a call of its own: where the line can't be said whole, what stands before the piece that fails is
// said.
fn tell_zeros<R: Print>(rt: &R, spare: &[u8], memory: &[u8]) -> io::Result<()> {
    print!(rt; "zero: ")?;
    rt.print(zeros(spare))?;
    print!(rt; " of the other area, ")?;
    rt.print(zeros(memory))?;
    println!(rt; " of memory")
}

// The three buffers are passed on one by one, as `deliver` takes them: a struct would only be taken apart again.
fn answer<R: Print + Eprint>(
    rt: &R,
    text: &[u8],
    blanks: bool,
    again: u64,
    run: &mut [u8],
    spare: &mut [u8],
    memory: &mut [u8],
) -> io::Result<()> {
    let progress = Progress::Silent;
    match deliver(rt, text, blanks, again, progress, run, spare, memory) {
        Delivery::Done => {
            rt.write_all(run)?;
            if blanks {
                tell_zeros(rt, spare, memory)?;
            }
            Ok(())
        }
        Delivery::Refused(number, z) => rt.write_all(RefusalLine::of(number, z).bytes()),
        Delivery::NoRoom(size) => {
            print!(rt; "no room for ")?;
            rt.print(size)?;
            println!(rt)
        }
    }
}

// How often each step is sent again, by an argument that is a number.
fn times<R: Env + Print>(rt: &R, which: usize) -> io::Result<u64> {
    let mut room = [0u8; WORD];
    let number = word(rt, which, &mut room);
    rt.write_all(number)?;
    print!(rt; " ")?;
    Ok(read_number(number).unwrap_or(0))
}

// Whether an argument, the last of a delivery, is `blank`.
fn says_blank<R: Env + Print>(rt: &R, which: usize) -> io::Result<bool> {
    let mut room = [0u8; WORD];
    let last = word(rt, which, &mut room);
    rt.write_all(last)?;
    println!(rt)?;
    Ok(is_word(last, b"blank"))
}

// The delivery of four words, by their places among the arguments.
fn one<R: Env + Files + Print + Eprint + Alloc>(
    rt: &R,
    words: [usize; 4],
    run: &mut [u8],
    spare: &mut [u8],
    memory: &mut [u8],
) -> io::Result<()> {
    let [order, input, again, blank] = words;
    let mut text = text_room();
    let n = file(rt, order, &mut text)?;
    let came = file(rt, input, run)?;
    let k = times(rt, again)?;
    let blanks = says_blank(rt, blank)?;
    spare.fill(MARK);
    memory.fill(MARK);
    answer(rt, &text[..n], blanks, k, &mut run[..came], spare, memory)
}

// Four words after four words. Lent by their types, the buffers need no proof of their lengths.
fn all<R: Env + Files + Print + Eprint + Alloc>(
    rt: &R,
    run: &mut [u8; INPUT],
    spare: &mut [u8; AREA],
    memory: &mut [u8; MEMORY],
) -> io::Result<()> {
    for i in 0..word_count(rt) / 4 {
        let k = i * 4;
        one(rt, [k + 1, k + 2, k + 3, k + 4], run, spare, memory)?;
    }
    Ok(())
}

fn main(rt: HostRuntime) -> io::Result<()> {
    let mut run = [0u8; INPUT];
    let mut spare = [0u8; AREA];
    let mut memory = [0u8; MEMORY];
    all(&rt, &mut run, &mut spare, &mut memory)
}
