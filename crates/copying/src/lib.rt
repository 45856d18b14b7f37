// Copies of bytes, and zero bytes.
#![tactic(auto)]

pub mod look; // look.rt: is every byte zero?

ghost use Rattle.std.specs.Prelude.{◌≡◌, ◌+◌, ◌≤◌, length, replicate};
ghost use Rattle.moving.specs.Laid.{cleared, laid};

// Below this the library's copy, which is a call, takes longer than the bytes one by one.
const SHORT: usize = 16;

// What one turn of the loop that the compiler makes of single bytes copies: of whole turns it is as quick as the library's copy,
// and quicker where that would write across two cache lines.
const TURN: usize = 32;

// dst becomes src, which is as long, byte by byte.
fn copy_bytes(dst: &mut [u8], src: &[u8])
    requires { length dst.old ≡ length src.now }
    ensures { dst.new ≡ src.now }
{
    for i in 0..src.len() {
        dst[i] = src[i];
    }
}

// dst becomes src, which is as long.
pub fn copy_into(dst: &mut [u8], src: &[u8])
    requires { length dst.old ≡ length src.now }
    ensures { dst.new ≡ src.now }
{
    if src.len() < SHORT || src.len() % TURN == 0 {
        copy_bytes(dst, src);
    } else {
        dst.copy_from_slice(src);
    }
}

// dst with all of src from index at on.
pub fn copy_part(dst: &mut [u8], at: usize, src: &[u8])
    requires { at + length src.now ≤ length dst.old }
    ensures { dst.new ≡ laid dst.old at (length src.now) src.now 0 }
{
    let e = at + src.len();
    copy_into(&mut dst[at..e], src);
}

// Every byte becomes zero.
pub fn clear(dst: &mut [u8])
    ensures { dst.new ≡ replicate (length dst.old) 0 }
{
    dst.fill(0);
}

// dst with its n bytes from index at on zero.
pub fn clear_part(dst: &mut [u8], at: usize, n: usize)
    requires { at + n ≤ length dst.old }
    ensures { dst.new ≡ cleared dst.old at n }
{
    let e = at + n;
    clear(&mut dst[at..e]);
}
