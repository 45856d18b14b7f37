// The lower parts of columns.
ghost use Rattle.std.specs.Prelude.{◌≡◌, map, ◌++◌, ◌<◌, ◌≤◌, ◌-◌, ◌/◌, ◌^◌, length, replicate};
ghost use Rattle.bank.specs.Limits;
ghost use Rattle.algebra.specs.Vector;

use bank::ROWS;

// The lower part of columns: each without its low m bits. The places after them hold zero.
pub fn lower(columns: &[u32], m: usize) -> [u32; ROWS]
    requires { (length columns.now ≤ Limits.ROWS) × (m < Vector.WORD) }
    ensures { result ≡ map (λ v. v / 2 ^ m) columns.now ++ replicate (Limits.ROWS - length columns.now) 0 }
{
    let mut part = [0; ROWS];
    for (i, column) in columns.iter().enumerate() {
        part[i] = column >> (m as u32);
    }
    part
}
