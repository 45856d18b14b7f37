// The bank of drives: the limits, and the kinds of numbers that the calls exchange.
// The limits stand here for the code and in specs/Limits.antt for the definitions, and nowhere else.
#![tactic(auto)]

pub mod refusal; // refusal.rt: why a call refuses, and by which number

ghost use Rattle.std.specs.Prelude.{◌≡◌, ◌<◌, ◌^◌};
ghost use Rattle.bank.specs.Geometry.{in_limits};

// The most bits that an address has, and so the most rows of a matrix.
pub const ROWS: usize = 32;

// The most passes that a plan holds.
pub const PASSES: usize = 17;

// The places for rows in a plan.
pub const PLACES: usize = PASSES * ROWS;

// The most bytes of a record.
const BYTES: u32 = 256;

// The bits of a word, in which a vector is kept.
pub const WORD: u32 = 32;

// 2^n records in blocks of 2^b on 2^d drives, a memory of 2^m records, records of r bytes.
#[derive(Clone, Copy, Debug, PartialEq, Eq)]
pub struct Geometry {
    pub n: u32,
    pub b: u32,
    pub d: u32,
    pub m: u32,
    pub r: u32,
}

// A record's address in an area.
#[derive(Clone, Copy, Debug, PartialEq, Eq)]
pub struct Address(pub u64);

// A step's number in a plan.
#[derive(Clone, Copy, Debug, PartialEq, Eq)]
pub struct Step(pub u64);

// A block's number in an area.
#[derive(Clone, Copy, Debug, PartialEq, Eq)]
pub struct Block(pub u64);

// Whether the geometry is inside the limits. No sum is taken that could wrap.
// It is one limit a line: as one `&&`, each would stand inside the proof of the one before.
// Functions that ask it of a geometry take that of a plan or an order, of which it is known: a type for it would be made for one call each time.
pub fn in_limits(g: Geometry) -> bool
    ensures { result ≡ in_limits g }
{
    if g.n < 2 {
        return false;
    }
    if (ROWS as u32) < g.n {
        return false;
    }
    if g.m <= g.b {
        return false;
    }
    if g.n <= g.m {
        return false;
    }
    if g.m - g.b < g.d {
        return false;
    }
    if g.r < 1 {
        return false;
    }
    if BYTES < g.r {
        return false;
    }
    true
}

// 2 to the k: N, B, D and M come from n, b, d and m so.
pub fn power(k: u32) -> u64
    requires { k < 64 }
    ensures { result ≡ 2 ^ k }
{
    1u64 << k
}
