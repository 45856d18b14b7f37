// Listings of plans are written, on slices. Room and place come one by one, as in writing.
#![tactic(auto)]

mod sound; // sound.rt: a plan that can run

ghost use Rattle.std.specs.Prelude.{◌≡◌, ◌++◌, ◌+◌, ◌<◌, ◌≤◌, length, take, drop};
ghost use Rattle.listing.specs.Listing.{head_lines, tail_lines, listing, written, room_after};
ghost use Rattle.listing.specs.Passes.{pass_at_lines};
ghost use Rattle.writing.specs.Written.{Wrote};

use crate::sound::Sound;
use bank::{PASSES, ROWS};
use planning::Plan;
use store::pass_rows;
use totals::{result_area, total_steps};
use writing::write::{line_size, put_line, put_row, put_rows};

// As many bytes as any listing has: three lines, and one for each pass, of at most 28 bytes, a word, 20 digits and LF;
// and for each pass at most ROWS + 1 lines of at most ROWS + 1 bytes.
pub const ROOM: usize = (3 + PASSES) * 28 + PASSES * (ROWS + 1) * (ROWS + 1);

impl Sound {
    // How many bytes the three lines before the passes have.
    fn head_size(self) -> usize
        ensures { result ≡ length (head_lines self.plan) }
    {
        let passes = line_size(b"passes ", u64::from(self.plan.count));
        let steps = line_size(b"steps ", total_steps(self.plan));
        let area = line_size(b"result ", u64::from(result_area(self.plan)));
        passes + steps + area
    }

    // How many bytes pass p has: its number's line, and n + 1 lines of n characters.
    fn pass_size(self, p: usize) -> usize
        requires { p < self.plan.count }
        ensures { result ≡ length (pass_at_lines self.plan p) }
    {
        let n = self.plan.geometry.n as usize;
        line_size(b"pass ", p as u64) + (n + 1) * (n + 1)
    }

    // How many bytes the passes have.
    fn tail_size(self) -> usize
        ensures { result ≡ length (tail_lines self.plan) }
    {
        let mut size = 0;
        for k in 0..self.plan.count as usize {
            size += self.pass_size(k);
        }
        size
    }

    // The three lines before the passes.
    fn put_head(self, room: &mut [u8]) -> usize
        requires { length (head_lines self.plan) ≤ length room.old }
        ensures { Wrote room.old 0 (head_lines self.plan) room.new result }
    {
        let passes = u64::from(self.plan.count);
        let steps = total_steps(self.plan);
        let area = u64::from(result_area(self.plan));
        let p = put_line(room, 0, b"passes ", passes);
        let q = put_line(room, p, b"steps ", steps);
        put_line(room, q, b"result ", area)
    }

    // Pass p: its number, its n rows, its complement.
    fn put_pass(self, room: &mut [u8], at: usize, p: usize) -> usize
        requires { (p < self.plan.count) × (at + length (pass_at_lines self.plan p) ≤ length room.old) }
        ensures { Wrote room.old at (pass_at_lines self.plan p) room.new result }
    {
        let n = self.plan.geometry.n as usize;
        let rows = pass_rows(&self.plan.rows, p);
        let i = put_line(room, at, b"pass ", p as u64);
        let j = put_rows(room, i, &rows[..n]);
        put_row(room, j, self.plan.complements[p], n)
    }

    // The passes, numbered from 0.
    fn put_tail(self, room: &mut [u8], at: usize) -> usize
        requires { at + length (tail_lines self.plan) ≤ length room.old }
        ensures { Wrote room.old at (tail_lines self.plan) room.new result }
    {
        let mut i = at;
        for p in 0..self.plan.count as usize {
            i = self.put_pass(room, i, p);
        }
        i
    }
}

// How many bytes the listing has: none where the plan can't run.
pub fn listing_size(plan: Plan) -> usize
    ensures { result ≡ length (listing plan) }
{
    match Sound::of(plan) {
        Some(sound) => sound.head_size() + sound.tail_size(),
        None => 0,
    }
}

// The whole listing into a room, and how many bytes it has; where it has no room nothing is written.
pub fn write_listing(plan: Plan, room: &mut [u8]) -> usize
    ensures { (result ≡ written plan room.old) × (room.new ≡ room_after plan room.old) }
{
    let Some(sound) = Sound::of(plan) else {
        return 0;
    };
    let head = sound.head_size();
    let size = head + sound.tail_size();
    if room.len() < size {
        return 0;
    }
    let p = sound.put_head(room);
    sound.put_tail(room, p)
}

// The whole listing of any plan, and how many bytes it has.
pub fn list_plan(plan: Plan, room: &mut [u8; ROOM]) -> usize
    ensures { (result ≡ length (listing plan)) × (result ≤ length room.new) × (result ≡ length (take result room.new))
        × (room.new ≡ listing plan ++ drop (length (listing plan)) room.old) }
{
    write_listing(plan, room)
}
