// Values that a line has several of, a word for each.
ghost use Rattle.std.specs.Prelude.{◌≡◌, ℕ, ◌+◌, ◌≤◌, Bool, true, false, List, map, length, if◌then◌else◌, Some, None, vec_len, vec_capacity, MatchOption};
ghost use Rattle.std.specs.List.{list_all};
ghost use Rattle.house.specs.Fields.{body_of, is_body, is_code};
ghost use Rattle.house.specs.Numbers.{decimal_value};
ghost use Rattle.house.specs.Words.{words as words_of};

use crate::number::{decimal, decimal_byte};
use crate::words::{Words, size_before};
use bench::row::Body;

// A value that one word spells.
pub(crate) trait Field: Sized {
    // The words that spell a value, and the value of each.
    ghost fits: { List ℕ → Bool };

    ghost value: { List ℕ → Self };

    fn read(word: &[u8]) -> Option<Self>
        ensures { result ≡ (if fits word.now then Some (value word.now) else None) };
}

// A fault code, in decimal.
impl Field for u8 {
    ghost fits = { is_code };

    ghost value = { decimal_value };

    fn read(word: &[u8]) -> Option<u8> {
        decimal_byte(word, u8::MAX)
    }
}

// A body: its start, a plus sign, its length.
impl Field for Body {
    ghost fits = { is_body };

    ghost value = { body_of };

    fn read(word: &[u8]) -> Option<Body> {
        let size = size_before(word, b'+');
        if size >= word.len() {
            return None;
        }
        Some(Body {
            start: decimal(&word[..size], u16::MAX)?,
            length: decimal(&word[size + 1..], u16::MAX)?,
        })
    }
}

// Adds the values that words spell to an empty vector that has room for them.
pub(crate) fn read_all<F: Field + Drop>(words: Words, mut items: Vec<F>) -> Option<Vec<F>>
    requires room { length (words_of words.text.now) ≤ vec_capacity items }
    requires empty { vec_len items ≡ 0 }
    ensures { MatchOption result (list_all F.fits (words_of words.entry.text.now) ≡ false) (λ v. (list_all F.fits (words_of words.entry.text.now) ≡ true) × (v.items ≡ map F.value (words_of words.entry.text.now))) }
{
    for word in words {
        items.push_reserved(F::read(word)?);
    }
    Some(items)
}
