// Numbers are read at a place of a text, and the first line. Text and place come one by one, as `field_at` and the other definitions take them.
ghost use Rattle.std.specs.Prelude.{◌≡◌, ◌<◌, length, IfSome};
ghost use Rattle.reading.specs.Parsing.{digit_at, number_at, field_at, first_line_at};

use bank::Geometry;

pub(crate) fn digit_at(text: &[u8], at: usize) -> Option<u32>
    ensures digit { result ≡ digit_at text.now at }
    ensures within { IfSome result (λ d. (d < 10) × (at < length text.now)) }
{
    char::from(*text.get(at)?).to_digit(10)
}

// A number of 1 to 3 digits with no leading zero but 0 itself, and the place past it.
fn number_at(text: &[u8], at: usize) -> Option<(u32, usize)>
    ensures { result ≡ number_at text.now at }
{
    let a = digit_at(text, at)?;
    if a == 0 {
        return Some((0, at + 1));
    }
    let Some(b) = digit_at(text, at + 1) else {
        return Some((a, at + 1));
    };
    let Some(c) = digit_at(text, at + 2) else {
        return Some((a * 10 + b, at + 2));
    };
    Some((a * 100 + b * 10 + c, at + 3))
}

// A number and the byte that ends it, and the place past that.
fn field(text: &[u8], at: usize, end: u8) -> Option<(u32, usize)>
    ensures { result ≡ field_at text.now at end }
{
    let (v, k) = number_at(text, at)?;
    if k < text.len() && text[k] == end {
        return Some((v, k + 1));
    }
    None
}

// n b d m R, one space between, and LF; and the place past it.
pub(crate) fn first_line(text: &[u8]) -> Option<(Geometry, usize)>
    ensures { result ≡ first_line_at text.now }
{
    let (n, i) = field(text, 0, b' ')?;
    let (b, j) = field(text, i, b' ')?;
    let (d, k) = field(text, j, b' ')?;
    let (m, l) = field(text, k, b' ')?;
    let (r, e) = field(text, l, b'\n')?;
    Some((Geometry { n, b, d, m, r }, e))
}
