// List texts, right and wrong, read into a room for eight entries.
use crate::say;
use entries::read_entries;
use std::io;

// The number, how many entries, and the first and the last place of the room, which held 99.
fn told(rt: &impl Print, name: &str, text: &str) -> io::Result<()> {
    let mut room = [99u64; 8];
    let r = read_entries(text.as_bytes(), &mut room);
    say::line(
        rt,
        name,
        &[u64::from(r.number), r.count as u64, room[0], room[7]],
    )
}

pub(crate) fn right(rt: &impl Print) -> io::Result<()> {
    for (name, text) in [
        ("no entry", ""),
        ("one entry", "7\n"),
        ("eight entries", "0\n1\n2\n3\n4\n5\n6\n7\n"),
        ("nine entries", "0\n1\n2\n3\n4\n5\n6\n7\n8\n"),
        ("ten digits", "9999999999\n"),
    ] {
        told(rt, name, text)?;
    }
    Ok(())
}

pub(crate) fn wrong(rt: &impl Print) -> io::Result<()> {
    for (name, text) in [
        ("eleven digits", "10000000000\n"),
        ("a leading zero", "1\n07\n"),
        ("two zeros", "00\n"),
        ("no LF at the end", "1\n2"),
        ("a blank line", "1\n\n2\n"),
        ("a blank last line", "1\n\n"),
        ("LF alone", "\n"),
        ("CR LF", "1\r\n"),
        ("a space", "1 \n"),
        ("a sign", "+1\n"),
        (
            "nine entries, the last wrong",
            "0\n1\n2\n3\n4\n5\n6\n7\nx\n",
        ),
    ] {
        told(rt, name, text)?;
    }
    Ok(())
}
