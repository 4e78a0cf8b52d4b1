// Addresses as words.
ghost use Rattle.std.specs.Prelude.{◌≡◌, drop, IfSome};
ghost use Rattle.house.specs.Fields.{AddressFrom, is_address, word_at};
ghost use Rattle.house.specs.Words.{words as words_of};

use crate::number::{Digit, pair};
use crate::words::Words;
use telegram::address::Address;

// The four words of an address.
#[derive(Clone, Copy)]
struct AddressWords<'a> {
    number: &'a [u8],
    maker: &'a [u8],
    version: &'a [u8],
    medium: &'a [u8],
}

impl<'a> AddressWords<'a> {
    // Whether they spell an address: eight decimal digits, then four, two and two hexadecimal ones.
    fn are_digits(self) -> bool
        ensures { result ≡ is_address self.entry.number.now self.entry.maker.now self.entry.version.now self.entry.medium.now }
    {
        Digit::Decimal.spell(self.number, 8)
            && Digit::Hexadecimal.spell(self.maker, 4)
            && Digit::Hexadecimal.spell(self.version, 2)
            && Digit::Hexadecimal.spell(self.medium, 2)
    }

    // The address that they spell.
    fn address(self) -> Option<Address>
        ensures { AddressFrom result self.entry.number.now self.entry.maker.now self.entry.version.now self.entry.medium.now }
    {
        if !self.are_digits() {
            return None;
        }
        let bytes = [
            pair(self.number, 6),
            pair(self.number, 4),
            pair(self.number, 2),
            pair(self.number, 0),
            pair(self.maker, 2),
            pair(self.maker, 0),
            pair(self.version, 0),
            pair(self.medium, 0),
        ];
        Some(Address::try_from(bytes).unwrap())
    }
}

// The address that the next four words spell.
pub(crate) fn next_address(words: &mut Words) -> Option<Address>
    ensures address { AddressFrom result (word_at (words_of words.old.text.now) 0) (word_at (words_of words.old.text.now) 1) (word_at (words_of words.old.text.now) 2) (word_at (words_of words.old.text.now) 3) }
    ensures rest { IfSome result (λ a. words_of words.new.text.now ≡ drop 4 (words_of words.old.text.now)) }
{
    let number = words.next()?;
    let maker = words.next()?;
    let version = words.next()?;
    let medium = words.next()?;
    AddressWords {
        number,
        maker,
        version,
        medium,
    }
    .address()
}
