// Lists of targets are read as text, and what is found of one is written.
#![tactic(auto)]

pub mod answer; // answer.rt: the matrix and complement of a list

ghost use Rattle.std.specs.Prelude.{◌≡◌, ◌≤◌, ◌==◌, length, MatchResult, IfOk};
ghost use Rattle.std.specs.List.{position};
ghost use Rattle.bank.specs.Refusal.{number_of};
ghost use Rattle.entries.specs.ListText.{IsText, ReadsList};
ghost use Rattle.entries.specs.Parsing.{EntryAt, CountedAs, HasLength};

use bank::refusal::Refusal;
use words::read_number;

// The byte that ends a line.
const LF: u8 = b'\n';

// The number and, where the list is taken, how many entries it has; 0 where refused, as `ReadsList` has it.
#[derive(Clone, Copy)]
pub struct Entries {
    pub number: u8,
    pub count: usize,
}

// Where the first LF stands.
fn line_end(text: &[u8]) -> Option<usize>
    ensures { result ≡ position (λ x. x == 10) text.now }
{
    text.iter().position(|x| *x == LF)
}

// The entry whose line begins at a place, and the place past its line.
fn entry_at(text: &[u8], at: usize) -> Option<(u64, usize)>
    ensures { EntryAt text.now at result }
{
    let rest = text.get(at..)?;
    let size = line_end(rest)?;
    let v = read_number(&rest[..size])?;
    Some((v, at + size + 1))
}

// How many entries the list has that a text is of.
fn count_entries(text: &[u8]) -> Option<usize>
    ensures { CountedAs text.now result }
{
    let mut at = 0;
    let mut count = 0;
    // The place goes on by a line's length, so no range gives it.
    while at < text.len() {
        (_, at) = entry_at(text, at)?;
        count += 1;
    }
    Some(count)
}

// The entries of a list's text, into a room that is as long as the list.
// One walk for this and for counting would take a closure, and a proof knows nothing of a room that a closure borrowed.
fn fill_entries(text: &[u8], room: &mut [u64])
    requires { HasLength text.now (length room.old) }
    ensures { IsText text.now room.new }
{
    let mut at = 0;
    for slot in room.iter_mut() {
        let Some((v, past)) = entry_at(text, at) else {
            return;
        };
        *slot = v;
        at = past;
    }
}

// A text is judged whole before an entry is written, so that a refusal leaves the room as it was.
fn take_entries(text: &[u8], room: &mut [u64]) -> Result<usize, Refusal>
    ensures reads_list { MatchResult result (λ n. ReadsList text.now room.old 0 n room.new)
        (λ r. ReadsList text.now room.old (number_of r) 0 room.new) }
    ensures count_in_bounds { IfOk result (λ n. n ≤ length room.new) }
{
    let count = count_entries(text).ok_or(Refusal::Text)?;
    if room.len() < count {
        return Err(Refusal::Length);
    }
    fill_entries(text, &mut room[..count]);
    Ok(count)
}

// The list that a text is of. It is made of a refusal here alone, so a `From` would be no shorter.
pub fn read_entries(text: &[u8], room: &mut [u64]) -> Entries
    ensures reads_list { ReadsList text.now room.old result.number result.count room.new }
    ensures count_in_bounds { result.count ≤ length room.new }
{
    match take_entries(text, room) {
        Ok(count) => Entries { number: 0, count },
        Err(refusal) => Entries {
            number: refusal.number(),
            count: 0,
        },
    }
}
