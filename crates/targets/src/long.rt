// Lists of 65,536 entries, whose matrices are made up of numbers that look random.
use crate::say;
use lists::recognise;
use matrix::rows::apply;
use std::io;

const BITS: usize = 16;

const ENTRIES: usize = 65536;

// The next of a row of numbers that look random.
fn next(x: u64) -> u64 {
    let y = x ^ (x << 13);
    let z = y ^ (y >> 7);
    z ^ (z << 17)
}

// Sixteen rows of sixteen bits.
fn random_rows(seed: u64) -> [u32; BITS] {
    let mut rows = [0; BITS];
    let mut s = seed;
    for row in rows.iter_mut() {
        s = next(s);
        *row = (s >> 48) as u32;
    }
    rows
}

fn fill(list: &mut [u64; ENTRIES], rows: &[u32; BITS], c: u32) {
    for (x, entry) in list.iter_mut().enumerate() {
        *entry = u64::from(apply(rows, x as u32) ^ c);
    }
}

// How many rows are the same.
fn same_rows(a: &[u32], b: &[u32]) -> u64 {
    a.iter().zip(b).filter(|(x, y)| x == y).count() as u64
}

// The number, how many rows are as they were, the difference of the complements, and z; then the same with one entry changed.
fn tried(rt: &impl Print, name: &str, list: &mut [u64; ENTRIES], seed: u64) -> io::Result<()> {
    let rows = random_rows(seed);
    let c = (next(seed ^ 1) >> 48) as u32;
    fill(list, &rows, c);
    let r = recognise(list);
    say::line(
        rt,
        name,
        &[
            u64::from(r.number),
            same_rows(&rows, &r.rows),
            u64::from(r.complement ^ c),
            r.z.0,
        ],
    )?;
    let x = (next(seed ^ 2) >> 48) as usize;
    list[x] ^= 1;
    let s = recognise(list);
    say::line(
        rt,
        "  an entry changed",
        &[
            u64::from(s.number),
            u64::from(s.n),
            u64::from(s.complement),
            s.z.0,
        ],
    )
}

pub(crate) fn random(rt: &impl Print) -> io::Result<()> {
    let mut list = [0; ENTRIES];
    for (name, seed) in [
        ("n = 16, seed 1", 81985529216486895),
        ("n = 16, seed 2", 1147797409030816545),
        ("n = 16, seed 3", 3141592653589793238),
        ("n = 16, seed 4", 2718281828459045235),
        ("n = 16, seed 5", 1618033988749894848),
        ("n = 16, seed 6", 1414213562373095048),
    ] {
        tried(rt, name, &mut list, seed)?;
    }
    Ok(())
}
