// The elimination: columns are reduced one after the other by the entries so far.
ghost use Rattle.std.specs.Prelude.{◌≡◌, ◌<◌, ◌≤◌, length};
ghost use Rattle.std.specs.Int.Bits.{bit_xor};
ghost use Rattle.std.specs.Int.Count.{count_trailing_zeros};
ghost use Rattle.bank.specs.Limits;
ghost use Rattle.algebra.specs.Vector;
ghost use Rattle.algebra.specs.Elimination.{rest, used, no_entries, with_entry, grown, built};
ghost use Rattle.elimination.specs.Echelon.{echelon_of};

use crate::echelon::Echelon;
use bank::ROWS;
use matrix::vector::{bit_of, power, unless_zero};

// What is left of a vector, and the columns that were added to it.
#[derive(Clone, Copy)]
pub struct Reduced {
    pub left: u32,
    pub tag: u32,
}

// The lowest set bit of x.
pub fn lowest(x: u32) -> u32
    ensures { result ≡ count_trailing_zeros Vector.WORD x }
{
    x.trailing_zeros()
}

impl Echelon {
    // No entries yet.
    pub fn new() -> Echelon
        ensures { echelon_of result ≡ no_entries Limits.ROWS }
    {
        Echelon {
            vectors: [0; ROWS],
            pivots: [0; ROWS],
            tags: [0; ROWS],
            count: 0,
        }
    }

    // v reduced by the entries, and t with the tags of those that were added.
    pub fn reduce(&self, v: u32, t: u32) -> Reduced
        ensures left { result.left ≡ rest self.now.vectors self.now.pivots self.now.count v }
        ensures tag { result.tag ≡ bit_xor t (used self.now.vectors self.now.pivots self.now.tags self.now.count v) }
    {
        let mut u = v;
        let mut s = t;
        for i in 0..self.count {
            let d = bit_of(u, self.pivots[i]);
            u ^= unless_zero(d, self.vectors[i]);
            s ^= unless_zero(d, self.tags[i]);
        }
        Reduced { left: u, tag: s }
    }

    // One entry more: what is left of a column, its lowest set bit, and the columns of which it is the sum.
    pub(crate) fn add(&mut self, left: u32, tag: u32)
        requires { self.old.count < Limits.ROWS }
        ensures { echelon_of self.new ≡ with_entry (echelon_of self.old) left tag }
    {
        let count = self.count;
        self.vectors[count] = left;
        self.pivots[count] = lowest(left);
        self.tags[count] = tag;
        self.count += 1;
    }

    // The entries after column j, too.
    pub fn grow(&mut self, j: u32, column: u32)
        requires { (self.old.count < Limits.ROWS) × (j < Vector.WORD) }
        ensures { echelon_of self.new ≡ grown (echelon_of self.old) j column }
    {
        let Reduced { left, tag } = self.reduce(column, power(j));
        if left != 0 {
            self.add(left, tag);
        }
    }

    // The entries after all columns.
    pub fn of(columns: &[u32]) -> Echelon
        requires { length columns.now ≤ Limits.ROWS }
        ensures { echelon_of result ≡ built Limits.ROWS columns.now (length columns.now) }
    {
        let mut entries = Echelon::new();
        for (j, column) in columns.iter().enumerate() {
            entries.grow(j as u32, *column);
        }
        entries
    }
}
