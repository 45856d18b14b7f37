// Is a list of targets an order's, and which matrix and complement give it?
#![tactic(auto)]

mod apart; // apart.rt: the entries against the only matrix and complement that can give them

ghost use Rattle.std.specs.Prelude.{◌≡◌, suc, ◌≤◌, MatchOption};
ghost use Rattle.bank.specs.Limits;
ghost use Rattle.lists.specs.Targets.{bits_for};
ghost use Rattle.lists.specs.Found.{answered};
ghost use Rattle.lists.specs.Recognised.{recognised};

use crate::apart::{apart_from, columns_of};
use bank::refusal::Refusal;
use bank::{Address, ROWS, power};
use elimination::questions::kernel;
use matrix::rows::columns;

// The number; n, the rows of A and c, zero everywhere where refused, as `recognised` has it.
// With 3, the least nonzero address z that A sends to zero; 0 with every other number.
#[derive(Clone, Copy)]
pub struct Recognised {
    pub number: u8,
    pub n: u32,
    pub rows: [u32; ROWS],
    pub complement: u32,
    pub z: Address,
}

// The matrix and the complement that give a list of 2^n entries: the rows, with zeros after them, and c.
#[derive(Clone, Copy)]
struct Found {
    n: u32,
    matrix: [u32; ROWS],
    complement: u32,
}

// The n in 2..ROWS for which so many entries are 2^n.
fn bits_for(size: usize) -> Option<u32>
    ensures { MatchOption result (bits_for size ≡ suc Limits.ROWS) (λ n. (n ≤ Limits.ROWS) × (n ≡ bits_for size)) }
{
    for n in 2..=ROWS as u32 {
        if size as u64 == power(n) {
            return Some(n);
        }
    }
    None
}

// Only one matrix and complement can give the list: c is entry 0, column j is entry 2^j without c.
// They are bits below N, so that a difference from the entries is N or more exactly where an entry is.
fn find(list: &[u64]) -> Result<Found, Refusal>
    ensures { answered result ≡ recognised list.now }
{
    let n = bits_for(list.len()).ok_or(Refusal::Entries)?;
    let k = n as usize;
    let size = power(n);
    let complement = (list[0] % size) as u32;
    let cols = columns_of(list, k);
    let off = apart_from(list, &cols[..k], complement);
    if size <= off {
        return Err(Refusal::Entries);
    }
    if off != 0 {
        return Err(Refusal::NoOrder);
    }
    let matrix = columns(&cols[..k], k);
    match kernel(&matrix[..k]) {
        0 => Ok(Found {
            n,
            matrix,
            complement,
        }),
        z => Err(Refusal::Singular(Address(u64::from(z)))),
    }
}

// The order that a list is, entry x being the target of address x. It is made of a refusal here alone, so a `From` would be no shorter.
pub fn recognise(list: &[u64]) -> Recognised
    ensures { result ≡ recognised list.now }
{
    match find(list) {
        Ok(found) => {
            let rows = found.matrix;
            Recognised {
                number: 0,
                n: found.n,
                rows,
                complement: found.complement,
                z: Address(0),
            }
        }
        Err(refusal) => Recognised {
            number: refusal.number(),
            n: 0,
            rows: [0; ROWS],
            complement: 0,
            z: refusal.z(),
        },
    }
}
