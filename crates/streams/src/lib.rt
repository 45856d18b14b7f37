// Bytes that come in: a buffer filled from a reader or from a word of the call, and the file that such a word names.
#![tactic(auto)]

ghost use Rattle.std.specs.Prelude.{◌≤◌, length, take, OnOk};
ghost use Rattle.std.specs.Str.{IsUtf8};
ghost use Rattle.std.specs.Io.KnownBytes.{Consumes};

use std::env::FillError;
use std::io::{Error, ErrorKind, Read};
use std::rt::{Env, Files};
use std::{fs, io, str};

// As many bytes as the longest word of a call that is read.
pub const WORD: usize = 4096;

// One read, into the front of the buffer: how many bytes came. None come at the end of the input, nor where the read fails.
fn read_some<R: Read>(reader: &mut R, buf: &mut [u8]) -> usize
    ensures in_bounds { result ≤ length buf.new }
    ensures bytes { Consumes (R.remaining reader.old) (R.remaining reader.new) (take result buf.new) }
{
    reader.read(buf).unwrap_or(0)
}

// Reads until the buffer is full, the input ends or a read fails: how many bytes came. What came before a read that fails counts.
pub fn fill<R: Read>(reader: &mut R, buf: &mut [u8]) -> usize
    ensures in_bounds { result ≤ length buf.new }
    ensures bytes { Consumes (R.remaining reader.old) (R.remaining reader.new) (take result buf.new) }
{
    let mut done = 0;
    // It goes on by what a read gives, so no range gives it.
    while done < buf.len() {
        let came = read_some(reader, &mut buf[done..]);
        if came == 0 {
            break;
        }
        done += came;
    }
    done
}

// How many words the call has, the program's name among them.
pub fn word_count<R: Env>(rt: &R) -> usize {
    (0..usize::MAX)
        .position(|i| matches!(rt.arg(i, &mut []), Err(FillError::NotPresent)))
        .unwrap_or(usize::MAX)
}

// A word of the call, read into the front of the buffer: no byte where it is missing or longer than the buffer.
pub fn word<'a, R: Env>(rt: &R, which: usize, buf: &'a mut [u8]) -> &'a [u8]
    ensures { length result.now ≤ length buf.old }
{
    let length = rt.arg(which, buf).unwrap_or(0);
    &buf[..length]
}

// The file of that name. A name that is no text is no file's.
pub fn open<R: Files>(rt: &R, name: &[u8]) -> io::Result<R::File>
    ensures { OnOk result (IsUtf8 name.now) }
{
    let Ok(path) = str::from_utf8(name) else {
        return Err(Error::new(ErrorKind::InvalidInput, "file name isn't text"));
    };
    fs::open(rt, path)
}

// Says what failed and why, in the system's words, without the number that follows them.
pub fn say_failed<R: Eprint + Alloc>(rt: &R, what: &[u8], error: Error) -> io::Result<()> {
    let text = format!(in rt.alloc(); "{error}")?;
    let reason = text.as_str().split(" (os error ").next().unwrap_or("");
    let what = str::from_utf8(what).unwrap_or("a name");
    eprintln!(rt; "{what}: {reason}")
}
