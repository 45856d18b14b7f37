// How far is a list from the one that its entry 0 and its entries 2^j ask for? Each entry is looked at once.
ghost use Rattle.std.specs.Prelude.{◌≡◌, ◌++◌, min, ◌-◌, ◌*◌, ◌/◌, ◌%◌, ◌<◌, ◌≤◌, ◌^◌, get_or, length, replicate};
ghost use Rattle.std.specs.Int.Bits.{bit_xor};
ghost use Rattle.bank.specs.Limits;
ghost use Rattle.algebra.specs.Search.{listed};
ghost use Rattle.algebra.specs.Vector.{comb};
ghost use Rattle.algebra.specs.Carry.{place_by};
ghost use Rattle.lists.specs.Apart;
ghost use Rattle.lists.specs.Apart.{all_bits, columns_of, apart_at};

use bank::{ROWS, power};
use matrix::carry::flip;

// The most low bits of an address whose targets are worked out once; the rest is carried from each so many entries to the next.
const LOW_BITS: usize = 8;

const LOW: usize = 1 << LOW_BITS;

// Entry 2^j without entry 0, as n bits, for each j below n; the places after them hold zero.
pub(crate) fn columns_of(list: &[u64], n: usize) -> [u32; ROWS]
    requires { (n ≤ Limits.ROWS) × (length list.now ≡ 2 ^ n) }
    ensures { result ≡ columns_of list.now n ++ replicate (Limits.ROWS - n) 0 }
{
    let size = power(n as u32);
    let mut cols = [0; ROWS];
    for j in 0..n {
        let at = power(j as u32) as usize;
        cols[j] = ((list[at] ^ list[0]) % size) as u32;
    }
    cols
}

// Writes into each place the base and the columns that its number picks.
fn fill_targets(low: &mut [u64], columns: &[u32], base: u32)
    ensures { low.new ≡ listed (place_by base columns.now) (length low.old) 0 }
{
    let mut y = base;
    for (i, target) in low.iter_mut().enumerate() {
        *target = u64::from(y);
        y ^= flip(columns, i);
    }
}

// Every bit by which an entry of the part differs from its low target with the change.
fn apart_here(part: &[u64], low: &[u64], change: u64) -> u64
    requires { length part.now ≤ length low.now }
    ensures { result ≡ all_bits (λ i. bit_xor (get_or part.now i 0) (bit_xor (get_or low.now i 0) change)) (length part.now) }
{
    let mut off = 0;
    for (entry, target) in part.iter().zip(low) {
        off |= *entry ^ (*target ^ change);
    }
    off
}

// The same over the whole list, part by part: the change of a part is the sum of the high columns that its number picks.
fn apart_parts(list: &[u64], low: &[u64], high: &[u32]) -> u64
    requires { (0 < length low.now) × (length list.now % length low.now ≡ 0) }
    ensures { result ≡ all_bits (λ x. bit_xor (get_or list.now x 0) (bit_xor (get_or low.now (x % length low.now) 0)
        (comb high.now (x / length low.now)))) (length list.now) }
{
    let mut off = 0;
    let mut change = 0;
    for (q, part) in list.chunks_exact(low.len()).enumerate() {
        off |= apart_here(part, low, u64::from(change));
        change ^= flip(high, q);
    }
    off
}

// Every bit by which an entry differs from the base and those of the columns that its address picks.
pub(crate) fn apart_from(list: &[u64], columns: &[u32], base: u32) -> u64
    requires { (length columns.now ≤ Limits.ROWS) × (length list.now ≡ 2 ^ length columns.now) }
    ensures { result ≡ all_bits (apart_at list.now base columns.now) (length list.now) }
{
    let h = columns.len().min(LOW_BITS);
    let count = power(h as u32) as usize;
    let mut room = [0; LOW];
    let low = &mut room[..count];
    fill_targets(low, &columns[..h], base);
    apart_parts(list, low, &columns[h..])
}
