// The entries of an elimination so far.
ghost use Rattle.std.specs.Prelude.{◌≤◌};
ghost use Rattle.bank.specs.Limits;

use bank::ROWS;

// A vector, one set bit of it, and the columns of which it is the sum. They stand in three lists, as the
// definitions `rest` and `used` speak of them.
#[derive(Clone, Copy)]
pub struct Echelon {
    pub vectors: [u32; ROWS],
    pub pivots: [u32; ROWS],
    pub tags: [u32; ROWS],
    pub count: usize,
    ghost fits: { count ≤ Limits.ROWS },
}
