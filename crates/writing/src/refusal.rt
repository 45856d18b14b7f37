// The line that is written for an order that is refused.
ghost use Rattle.std.specs.Prelude.{◌≡◌, ◌++◌, ◌≤◌, length, take, drop};
ghost use Rattle.writing.specs.Refusal.{refusal};

use crate::write::put_line;
use bank::Address;
use bank::refusal::Refusal;

// As many bytes as any such line has: a word, a number of one digit, two spaces, 20 digits and LF.
pub const REFUSAL: usize = 31;

// `refused K`, and z after it with 3; and how many bytes the line has. Callers have the number alone, as the structs that carry it do.
pub fn write_refusal(number: u8, z: Address, room: &mut [u8; REFUSAL]) -> usize
    ensures { (result ≡ length (refusal number z.0)) × (result ≤ length room.new) × (result ≡ length (take result room.new))
        × (room.new ≡ refusal number z.0 ++ drop (length (refusal number z.0)) room.old) }
{
    if number == Refusal::Singular(z).number() {
        return put_line(room, 0, b"refused 3 ", z.0);
    }
    put_line(room, 0, b"refused ", u64::from(number))
}

// The line of a refusal, at the front of the room that any such line has: no heap is used.
#[derive(Clone, Copy)]
pub struct RefusalLine {
    pub room: [u8; REFUSAL],
    pub size: usize,
    ghost fits: { size ≤ length room },
}

impl RefusalLine {
    // The line for a number, with z after it where that is 3.
    pub fn of(number: u8, z: Address) -> RefusalLine
        ensures { take result.size result.room ≡ refusal number z.0 }
    {
        let mut room = [0; REFUSAL];
        let size = write_refusal(number, z, &mut room);
        RefusalLine { room, size }
    }

    // Its bytes.
    pub fn bytes(&self) -> &[u8]
        ensures { result.now ≡ take self.now.size self.now.room }
    {
        &self.room[..self.size]
    }
}
