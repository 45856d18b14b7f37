// The words of the call.
use std::fmt;
use std::fmt::{Display, Formatter};
use std::rt::Env;
use streams::{WORD, word, word_count};
use words::{is_word, read_number};

// How often each step is sent again, and whether the spent area is blanked.
#[derive(Clone, Copy, Debug, PartialEq, Eq)]
pub(crate) struct Call {
    pub(crate) again: u64,
    pub(crate) blanks: bool,
}

// What is wrong with the call.
#[derive(Clone, Copy, Debug, PartialEq, Eq)]
pub(crate) enum WrongCall {
    Missing,
    TooMany,
    NoNumber,
    NoBlank,
}

impl Display for WrongCall {
    fn fmt<W: fmt::Write>(&self, f: &mut Formatter<W>) -> fmt::Result {
        match self {
            WrongCall::Missing => write!(f, "no order is named"),
            WrongCall::TooMany => write!(f, "too many words"),
            WrongCall::NoNumber => write!(f, "AGAIN is no number"),
            WrongCall::NoBlank => write!(f, "the last word isn't blank"),
        }
    }
}

// Whether a word of the call is `blank`.
fn says_blank<R: Env>(rt: &R, which: usize) -> bool {
    let mut room = [0u8; WORD];
    is_word(word(rt, which, &mut room), b"blank")
}

// The second word as a number.
fn read_again<R: Env>(rt: &R) -> Result<u64, WrongCall> {
    let mut room = [0u8; WORD];
    read_number(word(rt, 2, &mut room)).ok_or(WrongCall::NoNumber)
}

// The second word is a number, 0 where there is none; the last may be `blank`.
pub(crate) fn read_call<R: Env>(rt: &R) -> Result<Call, WrongCall> {
    let count = word_count(rt);
    if count < 2 {
        return Err(WrongCall::Missing);
    }
    if 4 < count {
        return Err(WrongCall::TooMany);
    }
    let blanks = 2 < count && says_blank(rt, count - 1);
    if count == 4 && !blanks {
        return Err(WrongCall::NoBlank);
    }
    let again = if count == 4 || count == 3 && !blanks {
        read_again(rt)?
    } else {
        0
    };
    Ok(Call { again, blanks })
}
