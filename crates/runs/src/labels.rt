// Bytes that are labelled by where they begin, and how many of them are where they must be.
use addresses::target_of;
use bank::Address;
use order::Order;

// The bytes of a record.
const RECORD: usize = 8;

// The label of record x, where the records are labelled by their addresses, from first on.
fn label_of_record(x: usize, first: u8) -> u8 {
    first.wrapping_add((x % 64) as u8)
}

// Byte i of a buffer of such records.
fn label_of(i: usize, first: u8) -> u8 {
    label_of_record(i / RECORD, first)
}

pub(crate) fn label(bytes: &mut [u8], first: u8) {
    for (i, byte) in bytes.iter_mut().enumerate() {
        *byte = label_of(i, first);
    }
}

// How many bytes are zero.
pub(crate) fn zeros(bytes: &[u8]) -> u64 {
    bytes.iter().filter(|byte| **byte == 0).count() as u64
}

// How many bytes are not those of their label.
pub(crate) fn changed(bytes: &[u8], first: u8) -> u64 {
    bytes
        .iter()
        .enumerate()
        .filter(|(i, byte)| **byte != label_of(*i, first))
        .count() as u64
}

// Byte i of area 1 after step 1 of the reversal: places 0, 1, 10 and 11 have the load's records, and nothing else changed.
fn after_write(i: usize) -> u8 {
    match i {
        0..16 => label_of(i, 50),
        80..96 => label_of(i - 64, 50),
        _ => label_of(i, 150),
    }
}

pub(crate) fn wrongly_written(area: &[u8]) -> u64 {
    area.iter()
        .enumerate()
        .filter(|(i, byte)| **byte != after_write(*i))
        .count() as u64
}

// Whether record x, which is labelled 50 + x, is at Ax xor c in the area.
fn is_there(o: Order, area: &[u8], x: usize) -> bool {
    let target = target_of(o, Address(x as u64));
    let label = label_of_record(x, 50);
    area.chunks(RECORD)
        .nth(target.address.0 as usize)
        .is_some_and(|record| record.iter().all(|byte| *byte == label))
}

// How many of the area's records are.
pub(crate) fn arrived(o: Order, area: &[u8]) -> u64 {
    (0..area.len() / RECORD)
        .filter(|x| is_there(o, area, *x))
        .count() as u64
}
