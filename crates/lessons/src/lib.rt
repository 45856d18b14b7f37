// What the lessons find and mark: where a key lies, and whether an answer is right.
#![tactic(auto)]

ghost use Rattle.std.specs.Prelude.{◌≡◌, ◌&&◌, eqb, leb, length, get_or};
ghost use Rattle.algebra.specs.Search.{least};
ghost use Rattle.lessons.specs.Mark.{Marked};

use addresses::{Target, target_of};
use bank::Address;
use order::Order;
use words::read_number;

// Right, wrong, or a question that can't be asked of this order: its number and z, as `Marked` has them.
#[derive(Clone, Copy, Debug, PartialEq, Eq)]
pub enum Mark {
    Right,
    Wrong,
    Refused(u8, Address),
}

// The least place from `from` on that holds the key, or the number of places where none does, for its promise is `least`, which has no other.
pub fn next_place(places: &[u8], key: u8, from: usize) -> usize
    ensures { result ≡ least (λ i. leb from i && eqb (get_or places.now i 0) key) (length places.now) }
{
    for i in from..places.len() {
        if places[i] == key {
            return i;
        }
    }
    places.len()
}

// Whether the answer is, in decimal, the address to which the order sends x.
pub fn mark_of(order: Order, x: Address, answer: &[u8]) -> Mark
    ensures { Marked order x.0 answer.now result }
{
    let Target { number, address, z } = target_of(order, x);
    if number != 0 {
        return Mark::Refused(number, z);
    }
    if read_number(answer) == Some(address.0) {
        Mark::Right
    } else {
        Mark::Wrong
    }
}
