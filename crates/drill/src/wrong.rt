// THE WRONG MOVER, for the first lesson alone. Before it writes, it rearranges its memory in place, so a write that is sent again is wrong.
// It knows the example bank only: 16 records of one byte, blocks of 2, 2 drives, a memory of 4, so a memoryload has one read and one write.
use bank::ROWS;
use matrix::rows::apply;
use planning::Plan;
use store::pass_rows;

// The slot to which a pass sends address x.
fn slot(rows: &[u32; ROWS], complement: u32, x: u32) -> usize {
    ((apply(&rows[..4], x) ^ complement) % 16) as usize
}

// WRONG: each record goes to the place in memory that the low two bits of its slot name. Done again, it moves them on.
fn rearranged(memory: [u8; 4], to: [usize; 4]) -> [u8; 4] {
    let mut after = [0u8; 4];
    for (y, record) in to.iter().zip(memory) {
        after[y % 4] = record;
    }
    after
}

// The area with the block that the memoryload has for the drive: the record for slot y, where y is on the drive, from the rearranged memory.
fn written(area: [u8; 16], memory: [u8; 4], to: [usize; 4], drive: usize) -> [u8; 16] {
    let mut after = area;
    for y in to {
        if y / 2 % 2 == drive {
            after[y % 16] = memory[y % 4];
        }
    }
    after
}

// The slots of the four records from address x on.
fn slots(rows: &[u32; ROWS], complement: u32, x: usize) -> [usize; 4] {
    let mut to = [0; 4];
    for (i, y) in to.iter_mut().enumerate() {
        *y = slot(rows, complement, (x % 16 + i) as u32);
    }
    to
}

// The four records from address x on.
fn read(area: [u8; 16], x: usize) -> [u8; 4] {
    let mut records = [0; 4];
    for (i, record) in records.iter_mut().enumerate() {
        *record = area[(x % 16 + i) % 16];
    }
    records
}

// One memoryload: read, rearranged and written. Where drive 1 answers late, the write is sent again, and drive 0, which has answered, is left out.
fn moved(
    from: [u8; 16],
    to: [u8; 16],
    rows: &[u32; ROWS],
    complement: u32,
    load: usize,
    late: bool,
) -> [u8; 16] {
    let x = load % 4 * 4;
    let goes = slots(rows, complement, x);
    let memory = rearranged(read(from, x), goes);
    let zeroth = written(to, memory, goes, 0);
    let both = written(zeroth, memory, goes, 1);
    if late {
        let again = rearranged(memory, goes);
        return written(both, again, goes, 1);
    }
    both
}

// One pass: its four memoryloads. Where drive 1 answers late, it does so at the write of the first.
fn pass(from: [u8; 16], rows: &[u32; ROWS], complement: u32, late: bool) -> [u8; 16] {
    let mut to = [0u8; 16];
    for load in 0..4 {
        to = moved(from, to, rows, complement, load, late && load == 0);
    }
    to
}

// The three passes of the plan, with a late answer at the write of memoryload 0 in pass 1: what the slots hold at the end.
pub(crate) fn run(plan: Plan, keys: [u8; 16]) -> [u8; 16] {
    let mut slots = keys;
    for p in 0..3 {
        let from = slots;
        slots = pass(from, &pass_rows(&plan.rows, p), plan.complements[p], p == 1);
    }
    slots
}
