// Reads an order text from standard input, and writes the listing of its plan, or one line that refuses it.
#![tactic(auto)]

use addresses::source_of;
use bank::Address;
use listing::{ROOM, list_plan};
use order::Order;
use plan::make::make_plan;
use reading::{read_order, text_room};
use std::io;
use streams::fill;
use writing::refusal::RefusalLine;

// The listing of the order's plan.
fn write_plan(rt: &impl Print, order: Order) -> io::Result<()> {
    let planned = make_plan(order, false);
    let mut room = [0u8; ROOM];
    let k = list_plan(planned.plan, &mut room);
    rt.write_all(&room[..k])
}

fn main(rt: HostRuntime) -> io::Result<()> {
    let mut buffer = text_room();
    let n = fill(&mut rt.reader(), &mut buffer);
    let read = read_order(&buffer[..n]);
    if read.number != 0 {
        return rt.write_all(RefusalLine::of(read.number, read.z).bytes());
    }
    // An order that is taken answers backwards: this one comes from somewhere.
    let Err(why) = source_of(read.order, Address(0)) else {
        return write_plan(&rt, read.order);
    };
    rt.write_all(RefusalLine::of(why.number(), why.z()).bytes())
}
