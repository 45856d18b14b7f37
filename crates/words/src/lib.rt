// Is a word a number, and which? Is it the one that is wanted?
#![tactic(auto)]

ghost use Rattle.std.specs.Prelude.{◌≡◌, true, ◌↔◌};
ghost use Rattle.words.specs.Says.{Says};

// The most digits that a number has here.
const DIGITS: usize = 10;

// The number whose decimal the word is: 1 to 10 digits, no leading zero but 0 itself.
pub fn read_number(word: &[u8]) -> Option<u64>
    ensures { Says word.now result }
{
    if word.is_empty() || DIGITS < word.len() {
        return None;
    }
    if 1 < word.len() && word[0] == b'0' {
        return None;
    }
    let mut value = 0;
    for byte in word {
        value = value * 10 + u64::from(char::from(*byte).to_digit(10)?);
    }
    Some(value)
}

// Whether the word is the one that is wanted.
pub fn is_word(word: &[u8], wanted: &[u8]) -> bool
    ensures { (result ≡ true) ↔ (word.now ≡ wanted.now) }
{
    word == wanted
}
