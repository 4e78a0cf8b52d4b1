// Numbers as words of decimal or hexadecimal digits.
ghost use Rattle.std.specs.Prelude.{◌≡◌, ◌+◌, ◌<◌, length, if◌then◌else◌, Some, None};
ghost use Rattle.house.specs.Numbers.{decimal_value, has_digits, is_decimal, is_digit, pair_at};

use input::hex::hex_digit;

// A kind of digit.
#[derive(Clone, Copy)]
pub(crate) enum Digit {
    Decimal,
    // in upper case
    Hexadecimal,
}

impl Digit {
    // Whether a character is a digit of this kind.
    fn admits(&self, c: u8) -> bool
        ensures { result ≡ is_digit self.now c }
    {
        match *self {
            Digit::Decimal => matches!(c, b'0'..=b'9'),
            Digit::Hexadecimal => matches!(c, b'0'..=b'9' | b'A'..=b'F'),
        }
    }

    // Whether a word is so many digits of this kind.
    pub(crate) fn spell(&self, word: &[u8], count: usize) -> bool
        ensures { result ≡ has_digits self.now count word.now }
    {
        word.iter().all(|c| self.admits(*c)) && word.len() == count
    }
}

// The number that a word of decimal digits spells, if it is not above `most`.
#[tactic(auto, using(crate::proofs::Counting::counted_all, crate::proofs::Counting::counted_more, crate::proofs::Counting::no_digit, crate::proofs::Counting::too_large))]
pub(crate) fn decimal(word: &[u8], most: u16) -> Option<u16>
    ensures { result ≡ (if is_decimal most word.now then Some (decimal_value word.now) else None) }
{
    if word.is_empty() {
        return None;
    }
    let mut value: u16 = 0;
    // a loop, since a `try_fold` with both refusals inside is no plainer
    for c in word {
        if !Digit::Decimal.admits(*c) {
            return None;
        }
        value = value.checked_mul(10)?.checked_add(u16::from(*c - b'0'))?;
    }
    (value <= most).then_some(value)
}

// The same as a byte.
pub(crate) fn decimal_byte(word: &[u8], most: u8) -> Option<u8>
    ensures { result ≡ (if is_decimal most word.now then Some (decimal_value word.now) else None) }
{
    u8::try_from(decimal(word, u16::from(most))?).ok()
}

// The byte that the two hexadecimal digits at a place of a word spell.
pub(crate) fn pair(word: &[u8], place: usize) -> u8
    requires { place + 1 < length word.now }
    ensures { result ≡ pair_at word.now place }
{
    let high = hex_digit(word[place]).unwrap_or(0);
    let low = hex_digit(word[place + 1]).unwrap_or(0);
    high * 16 + low
}
