// Where does an order send an address, and where does one come from?
#![tactic(auto)]

ghost use Rattle.std.specs.Prelude.{◌≡◌};
ghost use Rattle.addresses.specs.Address.{question_number, target_of, meaning_of, found_for};
ghost use Rattle.addresses.specs.Answered.{answer_of};
ghost use Rattle.order.specs.Checked.{verdict_of};
ghost use Rattle.order.specs.Order.{with_z};

use bank::Address;
use bank::refusal::Refusal;
use elimination::questions::solve;
use matrix::rows::apply;
use order::{Order, check, check_form};

// Where an address goes: the number, and the address that it goes to, 0 where refused. With 3, z; 0 with every other number.
// The demands speak of these fields (`Answers`, `Sends`), so they stay.
#[derive(Clone, Copy)]
pub struct Target {
    pub number: u8,
    pub address: Address,
    pub z: Address,
}

// The checks of an address question: those of the order, and then that the address is below N.
fn check_asked(order: Order, x: Address) -> Result<(), Refusal>
    ensures { verdict_of result ≡ with_z (question_number order x.0) order }
{
    check(order)?;
    if bank::power(order.geometry.n) <= x.0 {
        return Err(Refusal::Beyond);
    }
    Ok(())
}

// Where the order sends x: Ax xor c. A target is made of a refusal here alone, so a `From` would be no shorter.
pub fn target_of(order: Order, x: Address) -> Target
    ensures { result ≡ target_of order x.0 }
{
    if let Err(refusal) = check_asked(order, x) {
        return Target {
            number: refusal.number(),
            address: Address(0),
            z: refusal.z(),
        };
    }
    let n = order.geometry.n as usize;
    let from = x.0 as u32;
    let y = apply(&order.rows[..n], from) ^ order.complement;
    Target {
        number: 0,
        address: Address(u64::from(y)),
        z: Address(0),
    }
}

// The one address that the order sends to y. One elimination tells 3, z and the source, so it is asked of the low n bits of y before 10 is known.
pub fn source_of(order: Order, y: Address) -> Result<Address, Refusal>
    ensures { meaning_of (answer_of result) ≡ found_for order y.0 }
{
    check_form(order)?;
    let n = order.geometry.n;
    let size = bank::power(n);
    let low = (y.0 % size) as u32;
    match solve(&order.rows[..n as usize], order.complement, low) {
        Ok(_) if size <= y.0 => Err(Refusal::Beyond),
        Ok(x) => Ok(Address(u64::from(x))),
        Err(z) => {
            let z = Address(u64::from(z));
            Err(Refusal::Singular(z))
        }
    }
}
