// The second lesson: a matrix that looks busy and is singular.
use crate::say;
use crate::say::number;
use bank::{Geometry, ROWS};
use lessons::next_place;
use matrix::rows::apply;
use order::{Order, judge};
use std::io;
use writing::refusal::RefusalLine;

// No row is zero and no two are the same, and yet the third is the sum of the first two.
fn busy() -> Order {
    let mut rows = [0u32; ROWS];
    rows[0] = 11; // 1101, column 0 first
    rows[1] = 14; // 0111
    rows[2] = 5; // 1010
    rows[3] = 6; // 0110
    Order {
        geometry: Geometry {
            n: 4,
            b: 1,
            d: 1,
            m: 2,
            r: 1,
        },
        rows,
        complement: 0,
    }
}

// The slot to which each address would go.
fn targets(rows: &[u32; ROWS]) -> [u8; 16] {
    let mut slots = [0u8; 16];
    for (x, slot) in slots.iter_mut().enumerate() {
        *slot = (apply(&rows[..4], x as u32) % 16) as u8;
    }
    slots
}

// Says who would go to the slot.
fn look<R: Print>(rt: &R, slots: &[u8; 16], slot: u8) -> io::Result<()> {
    number(rt, "  slot ", slot)?;
    let first = next_place(slots, slot, 0);
    if 16 <= first {
        return println!(rt; ": no address goes there, and it keeps last week's key");
    }
    let second = next_place(slots, slot, first + 1);
    number(rt, ": address ", first)?;
    if second < 16 {
        number(rt, " and address ", second)?;
        print!(rt; " share it, and one key is lost")?;
    }
    println!(rt)
}

pub(crate) fn tell<R: Print>(rt: &R) -> io::Result<()> {
    let order = busy();
    println!(rt; "\nLesson 2: the busy matrix\n")?;
    println!(rt; "The same bank, and an order with ones all over. Column 0 comes first:")?;
    say::rows(rt, &order.rows, 4)?;
    println!(rt; "No row is zero, and no two rows are the same. But row 0 xor row 1 is row 2.")?;
    println!(rt; "A mover that followed this order would do this:")?;
    let slots = targets(&order.rows);
    for slot in 0..16 {
        look(rt, &slots, slot)?;
    }
    let judged = judge(order);
    print!(rt; "The proved mover answers: ")?;
    rt.write_all(RefusalLine::of(judged.number, judged.z).bytes())?;
    let z = judged.z.0;
    println!(rt; "The order is wrong, and no retry helps.")?;
    number(rt, "The second number shows why: address ", z)?;
    println!(rt; " goes to the slot of address 0, and no smaller address but 0 itself does.")?;
    number(rt, "Every address x shares its slot with x xor ", z)?;
    println!(rt;
        ", as above. Read both numbers to the site that sent the order: they can try it by hand."
    )
}
