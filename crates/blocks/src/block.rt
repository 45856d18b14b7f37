// A block that is filled record by record.
ghost use Rattle.std.specs.Prelude.{◌≡◌, ℕ, ◌+◌, ◌*◌, ◌≤◌, ◌<◌, length};
ghost use Rattle.moving.specs.Bytes.{copied};
ghost use Rattle.algebra.specs.Carry.{place_by};
ghost use Rattle.blocks.specs.Places.{every, in_block, block_place};

use bank::Block;
use copying::copy_part;
use matrix::carry::flip;

// What blocks are filled with: the memory where the records lie, the columns that a record's number picks, the records of a block, and
// the bytes of each.
#[derive(Clone, Copy)]
pub(crate) struct Records<'a> {
    pub memory: &'a [u8],
    pub columns: &'a [u32],
    pub count: usize,
    pub r: usize,
    ghost some: { 0 < count * r },
}

impl Records<'_> {
    // Every record of the block from its place in memory: record k from the base and the columns that k picks.
    fn fill(self, block: &mut [u8], base: u32)
        requires long { length block.old ≡ self.count * self.r }
        requires by_index { (k : ℕ) → k < self.count → place_by base self.columns.now k * self.r + self.r ≤ length self.memory.now }
        ensures { block.new ≡ copied every (place_by base self.entry.columns.now) self.entry.r self.entry.memory.now block.old }
    {
        let mut place = base;
        for k in 0..self.count {
            let s = place as usize * self.r;
            let e = s + self.r;
            copy_part(block, k * self.r, &self.memory[s..e]);
            place ^= flip(self.columns, k);
        }
    }

    // The block of the area is lent on, and filled from memory.
    pub(crate) fn write(self, area: &mut [u8], block: Block, base: u32)
        requires inside { block.0 * (self.count * self.r) + self.count * self.r ≤ length area.old }
        requires by_index { (k : ℕ) → k < self.count → place_by base self.columns.now k * self.r + self.r ≤ length self.memory.now }
        ensures { area.new ≡ copied (in_block self.entry.count block.0) (block_place self.entry.count base self.entry.columns.now) self.entry.r
            self.entry.memory.now area.old }
    {
        let n = self.count * self.r;
        let o = block.0 as usize * n;
        let e = o + n;
        self.fill(&mut area[o..e], base);
    }
}
