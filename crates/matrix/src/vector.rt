// Numbers as vectors over GF(2).
ghost use Rattle.std.specs.Prelude.{◌≡◌, ◌<◌, ◌^◌};
ghost use Rattle.algebra.specs.Vector;
ghost use Rattle.algebra.specs.Vector.{parity, bit, unless_zero, comb};

use bank::WORD;

// The parity of x.
pub(crate) fn parity(x: u32) -> u32
    ensures { result ≡ parity x }
{
    x.count_ones() % 2
}

// Bit q of v.
pub fn bit_of(v: u32, q: u32) -> u32
    ensures { result ≡ bit v q }
{
    if q < WORD { (v >> q) % 2 } else { 0 }
}

// Nothing where d is 0, and v where it is not.
pub fn unless_zero(d: u32, v: u32) -> u32
    ensures { result ≡ unless_zero d v }
{
    if d == 0 { 0 } else { v }
}

// 2 to the j, in a word. `bank::power` has more bits: each is one shift, and a function for both would need a trait for that alone.
pub fn power(j: u32) -> u32
    requires { j < Vector.WORD }
    ensures { result ≡ 2 ^ j }
{
    1u32 << j
}

// The sum of those of the vectors that s picks.
pub fn sum(vectors: &[u32], s: u32) -> u32
    ensures { result ≡ comb vectors.now s }
{
    let mut total = 0;
    let mut left = s;
    for vector in vectors {
        total ^= unless_zero(left % 2, *vector);
        left /= 2;
    }
    total
}
