// Order texts are read, on slices.
#![tactic(auto)]

mod number; // number.rt: numbers at a place of a text, and the first line
mod rows; // rows.rt: rows of bits at a place of a text

ghost use Rattle.std.specs.Prelude.{◌≡◌, ◌≤◌, replicate, MatchResult};
ghost use Rattle.bank.specs.Limits;
ghost use Rattle.bank.specs.Refusal.{number_of, z_of};
ghost use Rattle.reading.specs.OrderText;
ghost use Rattle.reading.specs.Reading.{Reads, no_order};
ghost use Rattle.reading.specs.Found.{RestAt};

use crate::number::first_line;
use crate::rows::{row_at, rows_at};
use bank::refusal::Refusal;
use bank::{Address, Geometry, ROWS};
use elimination::questions::kernel;
use order::Order;

// More bytes than the text of an order inside the limits has.
const TEXT: usize = 20 + (ROWS + 1) * (ROWS + 1) + 1;

// What a refusal hands back.
const NO_ORDER: Order = Order {
    geometry: Geometry {
        n: 0,
        b: 0,
        d: 0,
        m: 0,
        r: 0,
    },
    rows: [0; ROWS],
    complement: 0,
};

// The number, and the order: zero everywhere where refused, as `Reads` has it. With 3, z; 0 with every other number.
#[derive(Clone, Copy)]
pub struct Read {
    pub number: u8,
    pub order: Order,
    pub z: Address,
}

// A room for the first bytes of an input: what they are read as, the whole input is read as.
pub fn text_room() -> [u8; TEXT]
    ensures { result ≡ replicate OrderText.TEXT 0 }
{
    [0u8; TEXT]
}

// What follows the first line of g: n rows, the complement, and nothing more.
fn rest_at(text: &[u8], at: usize, g: Geometry) -> Option<Order>
    requires { g.n ≤ Limits.ROWS }
    ensures { RestAt text.now at g result }
{
    let n = g.n as usize;
    let (rows, end) = rows_at(text, at, n)?;
    let (complement, k) = row_at(text, end, n)?;
    if k < text.len() {
        return None;
    }
    Some(Order {
        geometry: g,
        rows,
        complement,
    })
}

// The order that a text gives, or why it gives none.
fn order_of(text: &[u8]) -> Result<Order, Refusal>
    ensures { MatchResult result (λ order. Reads text.now 0 order 0) (λ r. Reads text.now (number_of r) no_order (z_of r).0) }
{
    let (g, e) = first_line(text).ok_or(Refusal::Text)?;
    if !bank::in_limits(g) {
        return Err(Refusal::Geometry);
    }
    let order = rest_at(text, e, g).ok_or(Refusal::Text)?;
    let n = g.n as usize;
    let z = kernel(&order.rows[..n]);
    if z != 0 {
        return Err(Refusal::Singular(Address(u64::from(z))));
    }
    Ok(order)
}

// What a text is read as. It is made of a refusal here alone, so a `From` would be no shorter.
pub fn read_order(text: &[u8]) -> Read
    ensures { Reads text.now result.number result.order result.z.0 }
{
    match order_of(text) {
        Ok(order) => Read {
            number: 0,
            order,
            z: Address(0),
        },
        Err(refusal) => Read {
            number: refusal.number(),
            order: NO_ORDER,
            z: refusal.z(),
        },
    }
}
