// Sets of columns as numbers: bit j is 1 where column j is in.
ghost use Rattle.std.specs.Prelude.{◌≡◌, ◌≤◌, length};
ghost use Rattle.bank.specs.Limits;
ghost use Rattle.algebra.specs.Matrix.{marked, one_if};
ghost use Rattle.planner.specs.Marks.{mask_of, lowest_of, bare};

use elimination::echelon::Echelon;
use elimination::reduce::lowest;
use matrix::vector::{bit_of, power, unless_zero};

// The marked ones of the columns.
pub(crate) fn marks(columns: &[u32]) -> u32
    requires { length columns.now ≤ Limits.ROWS }
    ensures { result ≡ mask_of (marked columns.now) (length columns.now) }
{
    let mut entries = Echelon::new();
    let mut set = 0;
    for (j, column) in columns.iter().enumerate() {
        let left = entries.reduce(*column, 0).left;
        set ^= unless_zero(left, power(j as u32));
        entries.grow(j as u32, *column);
    }
    set
}

// The lowest of the set alone; nothing, where there is none.
pub(crate) fn lowest_of(set: u32) -> u32
    ensures { result ≡ lowest_of set }
{
    if set == 0 { 0 } else { power(lowest(set)) }
}

// 1 where j is one of the columns from..to and not in the set, in which they are numbered from 0 on; 0 elsewhere.
pub(crate) fn bare(set: u32, from: usize, to: usize, j: usize) -> u32
    requires { to ≤ Limits.ROWS }
    ensures { result ≡ one_if (bare set from to j) }
{
    if j < from || to <= j {
        return 0;
    }
    1 ^ bit_of(set, (j - from) as u32)
}
