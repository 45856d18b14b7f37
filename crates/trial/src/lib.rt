// The orders that the trials ask about by name, and others like them.
#![tactic(auto)]

ghost use Rattle.std.specs.Prelude.{◌≡◌};
ghost use Rattle.trial.specs.Orders.{G, exchange_order, four_rows, gray_order, identity_order, largest_order, reversal_order, small_order, two_rows};

use bank::{Geometry, ROWS};
use matrix::rows;
use order::Order;

pub fn geometry(n: u32, b: u32, d: u32, m: u32, r: u32) -> Geometry
    ensures { result ≡ record { n = n; b = b; d = d; m = m; r = r } }
{
    Geometry { n, b, d, m, r }
}

// An order with four rows.
pub fn order(g: Geometry, r0: u32, r1: u32, r2: u32, r3: u32, c: u32) -> Order
    ensures { result ≡ four_rows g r0 r1 r2 r3 c }
{
    let mut rows = [0u32; ROWS];
    rows[..4].copy_from_slice(&[r0, r1, r2, r3]);
    Order {
        geometry: g,
        rows,
        complement: c,
    }
}

// The same in G.
pub fn in_g(r0: u32, r1: u32, r2: u32, r3: u32, c: u32) -> Order
    ensures { result ≡ four_rows G r0 r1 r2 r3 c }
{
    order(geometry(4, 1, 1, 2, 8), r0, r1, r2, r3, c)
}

pub fn reversal() -> Order
    ensures { result ≡ reversal_order }
{
    in_g(8, 4, 2, 1, 0)
}

pub fn identity(c: u32) -> Order
    ensures { result ≡ identity_order c }
{
    in_g(1, 2, 4, 8, c)
}

pub fn gray() -> Order
    ensures { result ≡ gray_order }
{
    in_g(3, 6, 12, 8, 0)
}

pub fn exchange() -> Order
    ensures { result ≡ exchange_order }
{
    in_g(4, 8, 1, 2, 0)
}

// Two rows, n = 2.
pub fn two_rows(r0: u32, r1: u32) -> Order
    ensures { result ≡ two_rows r0 r1 }
{
    order(geometry(2, 0, 0, 1, 8), r0, r1, 0, 0, 0)
}

pub fn small() -> Order
    ensures { result ≡ small_order }
{
    two_rows(2, 1)
}

// The identity of as many rows as there is room for.
pub fn largest(n: u32, r: u32) -> Order
    ensures { result ≡ largest_order n r }
{
    Order {
        geometry: geometry(n, 6, 2, 14, r),
        rows: rows::identity(ROWS),
        complement: 0,
    }
}
