// drill: two lessons and a question round for those who will send the steps. drill ORDER: a question round on the order text in the file ORDER.
// What finds, judges, moves and marks is in the crates below; here are the words of the lessons, and the wrong mover that they warn of.
#![tactic(auto)]

mod say; // say.rt: lines piece by piece, rows of bits
mod wrong; // wrong.rt: THE WRONG MOVER, for the first lesson alone
mod late; // late.rt: the first lesson, the late answer
mod busy; // busy.rt: the second lesson, the busy matrix
mod round; // round.rt: the question round

use reading::{read_order, text_room};
use std::io;
use std::rt::{Env, Files};
use streams::{WORD, fill, word, word_count};
use writing::refusal::RefusalLine;

// How to call it, on standard error, whose handle is `err`.
const CALL: &str = "drill [ORDER] < ANSWERS, where ORDER is a file with an order text";

// A round on the order of a text.
fn question_round<R: Input + Print, E: Print>(rt: &R, err: &E, text: &[u8]) -> io::Result<()> {
    let read = read_order(text);
    if read.number != 0 {
        return err.write_all(RefusalLine::of(read.number, read.z).bytes());
    }
    round::hold(rt, read.order)
}

// A round on the order in the file that the first word names.
fn named<R: Env + Files + Input + Print, E: Print>(rt: &R, err: &E) -> io::Result<()> {
    let mut path = [0u8; WORD];
    let name = word(rt, 1, &mut path);
    let Ok(mut order) = streams::open(rt, name) else {
        // The path goes there as bytes, since it need not be text.
        err.write_all(name)?;
        print!(err; " can't be opened")?;
        return println!(err; ": {CALL}");
    };
    let mut text = text_room();
    let n = fill(&mut order, &mut text);
    question_round(rt, err, &text[..n])
}

// The lessons, and a round on the example bank's order.
fn lessons<R: Input + Print + Eprint, E: Print>(rt: &R, err: &E, text: &[u8]) -> io::Result<()> {
    late::tell(rt, text)?;
    busy::tell(rt)?;
    print!(rt; "\nQuestions on the order of lesson 1\n\n")?;
    question_round(rt, err, text)
}

fn main(rt: HostRuntime) -> io::Result<()> {
    let err = rt.stderr();
    let count = word_count(&rt);
    if 2 < count {
        print!(&err; "too many words")?;
        return println!(&err; ": {CALL}");
    }
    if count == 2 {
        return named(&rt, &err);
    }
    lessons(&rt, &err, b"4 1 1 2 1\n0001\n0010\n0100\n1000\n0000\n")
}
