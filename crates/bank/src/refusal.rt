// Why does a call refuse? Each kind has one of the numbers that the calls give back.
ghost use Rattle.std.specs.Prelude.{◌≡◌};
ghost use Rattle.bank.specs.Refusal.{number_of, z_of};

use crate::Address;

#[derive(Clone, Copy, Debug, PartialEq, Eq)]
pub enum Refusal {
    // The geometry is outside the limits.
    Geometry,
    // The rows or the complement aren't in good form.
    Form,
    // The matrix is singular: the least nonzero address that it sends to zero.
    Singular(Address),
    // A buffer isn't as long as it must be.
    Length,
    // The step asked is neither the next nor the one before it.
    Turn,
    // The step asked is at or above the total.
    End,
    // The plan can't run.
    Plan,
    // The text can't be read.
    Text,
    // The address is N or more.
    Beyond,
    // The list has another length than 2^n, or an entry of N or more.
    Entries,
    // No matrix and complement give the list.
    NoOrder,
}

impl Refusal {
    // The number that is given back: at a call `number()` says what it is, and a `From` for u8 would not.
    pub fn number(self) -> u8
        ensures { result ≡ number_of self }
    {
        match self {
            Refusal::Geometry => 1,
            Refusal::Form => 2,
            Refusal::Singular(_) => 3,
            Refusal::Length => 4,
            Refusal::Turn => 5,
            Refusal::End => 6,
            Refusal::Plan => 7,
            Refusal::Text => 8,
            Refusal::Beyond => 10,
            Refusal::Entries => 11,
            Refusal::NoOrder => 12,
        }
    }

    // What is handed back with it: z with a singular matrix, and 0 else.
    pub fn z(self) -> Address
        ensures { result ≡ z_of self }
    {
        match self {
            Refusal::Singular(z) => z,
            _ => Address(0),
        }
    }
}
