// An order: a matrix and a complement for a bank of drives, and its judgement.
#![tactic(auto)]

pub mod form; // form.rt: stray bits, and places meant to be zero

ghost use Rattle.std.specs.Prelude.{◌≡◌, ◌||◌, ◌≤◌};
ghost use Rattle.bank.specs.Limits;
ghost use Rattle.bank.specs.Refusal.{number_in};
ghost use Rattle.order.specs.Order.{stray_row, stray_complement, bad_form, form_number, verdict};
ghost use Rattle.order.specs.Checked.{verdict_of};

use crate::form::{spare, stray};
use bank::refusal::Refusal;
use bank::{Address, Geometry, ROWS};
use elimination::questions::kernel;

// The order sends address x to Ax xor c: `rows` has the rows of A, `complement` is c.
#[derive(Clone, Copy)]
pub struct Order {
    pub geometry: Geometry,
    pub rows: [u32; ROWS],
    pub complement: u32,
}

// The judgement of an order: the number and, with 3, the least nonzero address z that A sends to zero; 0 with every other number.
// The number is a field, as `Sends` and `Numbers` (demands) speak of it; so it is in the answers of the crates above.
#[derive(Clone, Copy)]
pub struct Verdict {
    pub number: u8,
    pub z: Address,
}

// Whether a bit of a row or of the complement is at n or above.
fn has_stray(order: Order) -> bool
    requires { order.geometry.n ≤ Limits.ROWS }
    ensures { result ≡ stray_row order || stray_complement order }
{
    let size = bank::power(order.geometry.n);
    stray(&order.rows[..order.geometry.n as usize], size) || size <= u64::from(order.complement)
}

// Whether the order isn't in good form, in a geometry inside the limits.
fn bad_form(order: Order) -> bool
    requires { order.geometry.n ≤ Limits.ROWS }
    ensures { result ≡ bad_form order }
{
    has_stray(order) || spare(&order.rows, order.geometry.n as usize)
}

// The checks that need no elimination: the geometry, and then the form.
pub fn check_form(order: Order) -> Result<(), Refusal>
    ensures { number_in result ≡ form_number order }
{
    if !bank::in_limits(order.geometry) {
        return Err(Refusal::Geometry);
    }
    if bad_form(order) {
        return Err(Refusal::Form);
    }
    Ok(())
}

// The checks of an order, the first that applies. The elimination that tells whether the matrix is singular tells z.
pub fn check(order: Order) -> Result<(), Refusal>
    ensures { verdict_of result ≡ verdict order }
{
    check_form(order)?;
    match kernel(&order.rows[..order.geometry.n as usize]) {
        0 => Ok(()),
        z => Err(Refusal::Singular(Address(u64::from(z)))),
    }
}

// The judgement of an order: 1, 2, 3 or 0, the first that applies. It is made of a refusal here alone, so a `From` would be no shorter.
pub fn judge(order: Order) -> Verdict
    ensures { result ≡ verdict order }
{
    match check(order) {
        Ok(()) => Verdict {
            number: 0,
            z: Address(0),
        },
        Err(refusal) => Verdict {
            number: refusal.number(),
            z: refusal.z(),
        },
    }
}
