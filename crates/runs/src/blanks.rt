// The trials of plans that blank the spent area: what one blank leaves, and what is left at the end.
use crate::labels::{arrived, changed, wrongly_written};
use crate::moment::{AREA, MEMORY, Moment};
use crate::say;
use crate::steps::{plan, whole};
use order::Order;
use std::io;

// How many records of a moment in G arrived in area 1, and how many bytes are zero.
fn say_moment(rt: &impl Print, o: Order, l: &Moment) -> io::Result<()> {
    say::line(rt, "records that arrived", &[arrived(o, l.area1)])?;
    l.say_zeros(rt)
}

// What the first memoryload's read, write and blank leave: the load is zero in area 0 and in memory, and the write's bytes stay.
fn say_load(rt: &impl Print, l: &Moment) -> io::Result<()> {
    l.say_zeros(rt)?;
    say::line(
        rt,
        "bytes of area 1 that are wrong",
        &[wrongly_written(l.area1)],
    )?;
    say::line(rt, "bytes of area 0 that changed", &[changed(l.area0, 50)])
}

// The blank is done, and done again.
pub(crate) fn one_blank(rt: &impl Print) -> io::Result<()> {
    let p = plan(trial::reversal(), true);
    let mut area0 = [0u8; AREA];
    let mut area1 = [0u8; AREA];
    let mut memory = [0u8; MEMORY];
    let mut l = Moment::labelled(&mut area0, &mut area1, &mut memory);
    l.ask(rt, "reversal, blanking, step 0", p, 0)?;
    l.ask(rt, "then step 1", p, 1)?;
    say_load(rt, &l)?;
    l.ask(rt, "then step 2", p, 2)?;
    say_load(rt, &l)?;
    l.ask(rt, "then step 2", p, 2)?;
    say_load(rt, &l)?;
    l.ask(rt, "then step 1", p, 1)
}

// A run in parts, which end in a blank, in a read, and with a pass; and what is asked at the end.
pub(crate) fn in_parts(rt: &impl Print) -> io::Result<()> {
    let o = trial::reversal();
    let p = plan(o, true);
    let mut area0 = [0u8; AREA];
    let mut area1 = [0u8; AREA];
    let mut memory = [0u8; MEMORY];
    let mut l = Moment::labelled(&mut area0, &mut area1, &mut memory);
    l.go(rt, "reversal, blanking, a run of 3", p, 3)?;
    l.go(rt, "then a run of 4", p, 4)?;
    l.go(rt, "then a run of 5", p, 5)?;
    say_moment(rt, o, &l)?;
    l.go(rt, "then a run of 12", p, 12)?;
    say_moment(rt, o, &l)?;
    l.go(rt, "then a run of 100", p, 100)?;
    say_moment(rt, o, &l)?;
    l.ask(rt, "then step 36", p, 36)?;
    l.ask(rt, "then step 35", p, 35)?;
    l.ask(rt, "then step 34", p, 34)?;
    say_moment(rt, o, &l)
}

pub(crate) fn wholes(rt: &impl Print) -> io::Result<()> {
    for (asked, o) in [
        ("reversal, blanking, whole", trial::reversal()),
        ("Gray code, blanking, whole", trial::gray()),
        ("identity, c = 15, blanking, whole", trial::identity(15)),
        ("identity, blanking, whole", trial::identity(0)),
    ] {
        whole(rt, asked, o, true, AREA, MEMORY)?;
    }
    whole(
        rt,
        "n = 2, 01 10, blanking, whole",
        trial::small(),
        true,
        32,
        16,
    )
}
