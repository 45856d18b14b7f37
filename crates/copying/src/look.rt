// Is every byte zero? What is asked of the spare area and of memory once a run that blanks is done.
ghost use Rattle.std.specs.Prelude.{◌≡◌, true, ◌↔◌};
ghost use Rattle.moving.specs.Bytes.{AllZero};

// Whether every byte is zero: each is looked at, up to the first that isn't.
pub fn all_zero(bytes: &[u8]) -> bool
    ensures { (result ≡ true) ↔ AllZero bytes.now }
{
    bytes.iter().all(|x| *x == 0)
}
