// The question round: where does an address go?
use crate::say;
use crate::say::{bits, number};
use addresses::target_of;
use bank::{Address, power};
use lessons::{Mark, mark_of};
use matrix::vector::bit_of;
use order::Order;
use std::io;
use std::io::Read;
use streams::fill;

// The longest answer; a longer line is taken in parts.
const LINE: usize = 80;

// The next byte of the answers; none at their end.
fn next_byte<I: Read>(answers: &mut I) -> Option<u8> {
    let mut one = [0u8; 1];
    if fill(answers, &mut one) == 0 {
        None
    } else {
        Some(one[0])
    }
}

// A line of the answers, without its end; none at the end of the input.
fn line<'a, I: Read>(answers: &mut I, into: &'a mut [u8; LINE]) -> Option<&'a [u8]> {
    for n in 0..LINE {
        match next_byte(answers) {
            Some(b'\n') => return Some(&into[..n]),
            Some(byte) => into[n] = byte,
            None if n == 0 => return None,
            None => return Some(&into[..n]),
        }
    }
    Some(&into[..])
}

// Bit i of Ax xor c, from the ones that row i and x have in the same place and from bit i of c.
fn work_out_bit<R: Print>(
    rt: &R,
    order: Order,
    x: u32,
    y: u32,
    i: u32,
    row: u32,
) -> io::Result<()> {
    let n = order.geometry.n;
    number(rt, "  bit ", i)?;
    print!(rt; ": row ")?;
    bits(rt, row, n)?;
    print!(rt; ", address ")?;
    bits(rt, x, n)?;
    number(rt, ", ones in both ", (row & x).count_ones())?;
    number(rt, ", c has ", bit_of(order.complement, i))?;
    number(rt, ", so ", bit_of(y, i))?;
    println!(rt)
}

// Ax xor c, bit by bit.
fn work_out<R: Print>(rt: &R, order: Order, x: u32, y: u32) -> io::Result<()> {
    let n = order.geometry.n;
    for (i, row) in (0..n).zip(order.rows) {
        work_out_bit(rt, order, x, y, i, row)?;
    }
    number(rt, "  address ", x)?;
    print!(rt; " goes to ")?;
    bits(rt, y, n)?;
    number(rt, ", which is ", y)?;
    println!(rt)
}

// The order, and how a target is worked out.
fn show<R: Print>(rt: &R, order: Order) -> io::Result<()> {
    let n = order.geometry.n;
    println!(rt; "The rows of A, and c, bit 0 first:")?;
    say::rows(rt, &order.rows, n)?;
    print!(rt; "  c: ")?;
    bits(rt, order.complement, n)?;
    println!(rt;
        "\nBit i of the target is 1 where row i and the address have an odd number of ones in both."
    )?;
    println!(rt; "Where c has a 1, it is the other way round.")
}

// Asks for the target of x, and marks the answer: whether it was right, where there was one.
fn ask<R: Print, I: Read>(
    rt: &R,
    answers: &mut I,
    order: Order,
    x: u32,
) -> io::Result<Option<bool>> {
    number(rt, "Where does address ", x)?;
    println!(rt; " go?")?;
    let mut room = [0u8; LINE];
    let Some(answer) = line(answers, &mut room) else {
        return Ok(None);
    };
    let address = Address(u64::from(x));
    let target = target_of(order, address);
    let y = (target.address.0 % 4294967296) as u32;
    let right = mark_of(order, address, answer) == Mark::Right;
    println!(rt; "{}", if right { "Right." } else { "Wrong." })?;
    work_out(rt, order, x, y)?;
    Ok(Some(right))
}

// Questions until the input ends, or 2^32 - 1 are asked: address 3 first, then each time 5 further, round and round.
pub(crate) fn hold<R: Print + Input>(rt: &R, order: Order) -> io::Result<()> {
    let n = order.geometry.n;
    if 64 <= n {
        return Ok(());
    }
    show(rt, order)?;
    let size = power(n);
    let mut answers = rt.reader();
    let mut right = 0u64;
    let mut asked = 0u64;
    for turn in 0..u32::MAX {
        let x = u64::from(turn.wrapping_mul(5).wrapping_add(3)) % size;
        let Some(is_right) = ask(rt, &mut answers, order, x as u32)? else {
            break;
        };
        right += u64::from(is_right);
        asked += 1;
    }
    print!(rt; "{right}")?;
    number(rt, " right of ", asked)?;
    println!(rt)
}
