// The form of rows and complements: which bits and which places must be zero.
ghost use Rattle.std.specs.Prelude.{◌≡◌, not, ◌&&◌, ◌≤◌, eqb, leb, get_or, length};
ghost use Rattle.algebra.specs.Search.{any_below};

// Whether one of the numbers is size or more.
pub fn stray(rows: &[u32], size: u64) -> bool
    ensures { result ≡ any_below (λ i. leb size (get_or rows.now i 0)) (length rows.now) }
{
    rows.iter().any(|row| size <= u64::from(*row))
}

// Whether a place from n on isn't zero.
pub fn spare(rows: &[u32], n: usize) -> bool
    requires { n ≤ length rows.now }
    ensures { result ≡ any_below (λ i. leb n i && not (eqb (get_or rows.now i 0) 0)) (length rows.now) }
{
    rows[n..].iter().any(|row| *row != 0)
}
