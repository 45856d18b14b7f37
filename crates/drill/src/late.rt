// The first lesson: a drive answers late, and a step is sent again.
use crate::say::number;
use crate::wrong;
use addresses::target_of;
use bank::Address;
use delivery::deliver;
use lessons::next_place;
use order::Order;
use plan::make::make_plan;
use planning::Plan;
use reading::read_order;
use sending::progress::Progress;
use std::io;
use totals::total_steps;

// Key k begins at address k.
fn keys() -> [u8; 16] {
    [0, 1, 2, 3, 4, 5, 6, 7, 8, 9, 10, 11, 12, 13, 14, 15]
}

// Says where the key lies, unless it lies in one slot. True where that is the slot to which the order sends it.
fn look<R: Print>(rt: &R, order: Order, slots: &[u8; 16], key: u8) -> io::Result<bool> {
    let first = next_place(slots, key, 0);
    if 16 <= first {
        number(rt, "  key ", key)?;
        println!(rt; " is in no slot: no card gets it")?;
        return Ok(false);
    }
    let second = next_place(slots, key, first + 1);
    if second < 16 {
        number(rt, "  key ", key)?;
        number(rt, " is in slot ", first)?;
        number(rt, " and in slot ", second)?;
        println!(rt; ": two cards get it")?;
        return Ok(false);
    }
    let target = target_of(order, Address(u64::from(key)));
    Ok(target.address.0 == first as u64)
}

fn show<R: Print>(rt: &R, slots: &[u8; 16]) -> io::Result<()> {
    print!(rt; "  slots 0 to 15 hold the keys")?;
    for key in slots {
        number(rt, " ", *key)?;
    }
    println!(rt)
}

// Says which keys lie in two slots or in none, and how many in their own slot and no other.
fn look_all<R: Print>(rt: &R, order: Order, slots: &[u8; 16]) -> io::Result<()> {
    show(rt, slots)?;
    let mut right = 0u64;
    for key in 0..16 {
        right += u64::from(look(rt, order, slots, key)?);
    }
    number(rt, "  ", right)?;
    println!(rt; " of 16 keys are in their own slot and in no other")
}

// Step 9 is the write of memoryload 0 in pass 1: a pass has 8 steps, and step 8 is that load's read.
fn wrong_mover<R: Print>(rt: &R, order: Order, plan: Plan) -> io::Result<()> {
    println!(rt; "\nFirst a WRONG mover. Before it writes, it rearranges its memory in place.")?;
    println!(rt; "Step 9 writes a block on each drive. Drive 0 answers.")?;
    println!(rt; "Drive 1 has written too, but answers late, so step 9 is sent again.")?;
    println!(rt;
        "The wrong mover rearranges its memory once more, and writes drive 1's block from it."
    )?;
    println!(rt; "No step is refused. At the end:")?;
    look_all(rt, order, &wrong::run(plan, keys()))
}

fn proved_mover<R: Print + Eprint>(rt: &R, text: &[u8], order: Order) -> io::Result<()> {
    println!(rt; "\nNow the proved mover. Its memory stays as it was read,")?;
    println!(rt; "so a step done again writes the same bytes.")?;
    println!(rt; "Every step is sent three times. At the end:")?;
    let mut run = keys();
    let mut spare = [0u8; 16];
    let mut memory = [0u8; 4];
    deliver(
        rt,
        text,
        false,
        2,
        Progress::Silent,
        &mut run,
        &mut spare,
        &mut memory,
    );
    look_all(rt, order, &run)
}

pub(crate) fn tell<R: Print + Eprint>(rt: &R, text: &[u8]) -> io::Result<()> {
    println!(rt; "Lesson 1: the late answer\n")?;
    println!(rt; "The bank has 16 keys, in blocks of 2 on 2 drives, and a memory for 4.")?;
    println!(rt; "Key 0 begins at address 0, key 1 at address 1, and so on.")?;
    println!(rt; "The order is the bit reversal: key 1 is for slot 8, key 8 is for slot 1.")?;
    let read = read_order(text);
    let plan = make_plan(read.order, false).plan;
    number(rt, "It takes ", total_steps(plan))?;
    number(rt, " steps, in ", plan.count)?;
    println!(rt; " passes.")?;
    wrong_mover(rt, read.order, plan)?;
    proved_mover(rt, text, read.order)
}
