// Lists of four and of sixteen entries.
use crate::say;
use lists::recognise;
use matrix::rows::apply;
use order::Order;
use std::io;
use trial::{gray, identity, in_g, reversal};

// How often each number was given: 0, 3, 12, 11.
fn said(rt: &impl Print, asked: &str, given: &[u8]) -> io::Result<()> {
    let times = [0, 3, 12, 11].map(|k| given.iter().filter(|number| **number == k).count() as u64);
    say::line(rt, asked, &times)
}

// The list of an order of four rows, regular or not.
fn list_of(o: Order) -> [u64; 16] {
    let mut list = [0; 16];
    for (x, entry) in list.iter_mut().enumerate() {
        *entry = u64::from(apply(&o.rows[..4], x as u32) ^ o.complement);
    }
    list
}

pub(crate) fn orders(rt: &impl Print) -> io::Result<()> {
    for (name, o) in [
        ("reversal", reversal()),
        ("Gray code", gray()),
        ("identity, c = 15", identity(15)),
        ("rows 3, 5, 9, 8, c = 6", in_g(3, 5, 9, 8, 6)),
    ] {
        say::answer(rt, name, recognise(&list_of(o)))?;
    }
    Ok(())
}

// Two entries are equal.
pub(crate) fn singular(rt: &impl Print) -> io::Result<()> {
    for (name, o) in [
        ("three rows that sum to zero", in_g(3, 5, 6, 8, 9)),
        ("0100 0010 0001 0000", in_g(2, 4, 8, 0, 0)),
        ("0000 1000 0100 0010", in_g(0, 1, 2, 4, 0)),
        ("1100 0011 and zero rows", in_g(3, 12, 0, 0, 15)),
        ("every entry 5", in_g(0, 0, 0, 0, 5)),
    ] {
        say::answer(rt, name, recognise(&list_of(o)))?;
    }
    Ok(())
}

// Each entry in turn is each other number below 16 in turn.
fn one_changed(rt: &impl Print, name: &str, o: Order) -> io::Result<()> {
    let list = list_of(o);
    let mut given = [0; 16 * 15];
    for (i, number) in given.iter_mut().enumerate() {
        let mut other = list;
        other[i / 15] ^= i as u64 % 15 + 1;
        *number = recognise(&other).number;
    }
    said(rt, name, &given)
}

pub(crate) fn changed(rt: &impl Print) -> io::Result<()> {
    for (name, o) in [
        ("reversal, an entry changed", reversal()),
        ("Gray code, an entry changed", gray()),
        ("identity, c = 15, an entry changed", identity(15)),
        ("singular, an entry changed", in_g(3, 5, 6, 8, 9)),
        ("every entry 5, an entry changed", in_g(0, 0, 0, 0, 5)),
    ] {
        one_changed(rt, name, o)?;
    }
    Ok(())
}

// The first k entries of the identity's list.
pub(crate) fn lengths(rt: &impl Print) -> io::Result<()> {
    let list = list_of(identity(0));
    for (name, k) in [
        ("length 0", 0),
        ("length 1", 1),
        ("length 2", 2),
        ("length 3", 3),
        ("length 4", 4),
        ("length 5", 5),
        ("length 8", 8),
        ("length 15", 15),
        ("length 16", 16),
    ] {
        say::answer(rt, name, recognise(&list[..k]))?;
    }
    Ok(())
}

// The identity, but for the entry of the last address.
pub(crate) fn large(rt: &impl Print) -> io::Result<()> {
    let mut list = list_of(identity(0));
    for (name, v) in [
        ("last entry 15", 15),
        ("last entry 14", 14),
        ("last entry N", 16),
        ("last entry N + 15", 31),
        ("last entry 2^32 + 15", 4294967311),
        ("last entry 2^64 - 1", 18446744073709551615),
    ] {
        list[15] = v;
        say::answer(rt, name, recognise(&list))?;
    }
    Ok(())
}

// An entry is N or more, and nothing gives the list.
pub(crate) fn large_among_wrong(rt: &impl Print) -> io::Result<()> {
    let mut list = list_of(reversal());
    list[3] = 5;
    list[0] = 16;
    say::answer(rt, "no order's, and entry 0 is N", recognise(&list))?;
    let mut first = list_of(reversal());
    first[1] = 24;
    say::answer(rt, "column 0 has a bit too many", recognise(&first))
}

// Every list of four entries, each 0 to 4.
pub(crate) fn every_four(rt: &impl Print) -> io::Result<()> {
    let mut given = [0; 625];
    for (i, number) in given.iter_mut().enumerate() {
        let code = i as u64;
        let list = [code % 5, code / 5 % 5, code / 25 % 5, code / 125];
        *number = recognise(&list).number;
    }
    said(rt, "every list of four entries, each 0 to 4", &given)
}
