// What a beginning selects, what its probe lists, and which beginning comes after it.
ghost use Rattle.std.specs.Prelude.{◌≡◌, ◌+◌, ◌*◌, ◌<◌, [], map};
ghost use Rattle.std.specs.Option.{option_to_list};
ghost use Rattle.telegram.specs.Patterns.{digit_or_wildcard, beginning_pattern};
ghost use Rattle.search.specs.Addresses.{number, FitsBeginning};
ghost use Rattle.search.specs.Beginnings.{digits_of, followed};
ghost use Rattle.search.specs.Entries.{verdict_of, entry_of};
ghost use Rattle.search.specs.Laws.{Starts, Lists, Leads};
ghost use Rattle.search.specs.Next.{raised, upnext};
ghost use Rattle.search.specs.Numbers.{longer};
ghost use Rattle.search.specs.Verdicts.{found};

use super::Beginning;
use crate::entry::{Entry, Number};
use telegram::address::Address;
use telegram::matches::Matches;
use telegram::pattern::Pattern;

impl Beginning {
    // The empty one, with which a search starts.
    pub fn first() -> Beginning
        ensures digits { digits_of result ≡ [] }
        ensures starts { Starts number 8 (digits_of result) }
    {
        Beginning {
            digits: [0; 8],
            len: 0,
        }
    }

    // The digit at a place; past the end F, which fits every digit.
    fn digit_or_any(&self, i: usize) -> u8
        ensures value { result ≡ digit_or_wildcard (digits_of self.now) i }
        ensures small { result < 16 }
    {
        if i < self.len { self.digits[i] } else { 0xF }
    }

    // Two digits as a byte, the first of them at a place.
    fn pair(&self, i: usize) -> u8
        requires { i < 7 }
        ensures { result ≡ digit_or_wildcard (digits_of self.now) i * 16 + digit_or_wildcard (digits_of self.now) (i + 1) }
    {
        self.digit_or_any(i) * 16 + self.digit_or_any(i + 1)
    }

    // The digits, then F, two to a byte, the lowest pair first; then FF four times.
    pub fn pattern(&self) -> Pattern
        ensures bytes { result.bytes ≡ beginning_pattern (digits_of self.now) }
        ensures fits { FitsBeginning result.bytes (digits_of self.now) }
    {
        Pattern {
            bytes: [
                self.pair(6),
                self.pair(4),
                self.pair(2),
                self.pair(0),
                0xFF,
                0xFF,
                0xFF,
                0xFF,
            ],
        }
    }

    // What the verdict on this beginning lists.
    pub fn entry(&self, verdict: Matches<Address>) -> Option<Entry>
        ensures found { map entry_of (option_to_list result) ≡ found 8 (digits_of self.now) (verdict_of verdict) }
        ensures lists { Lists number 8 (digits_of self.now) (verdict_of verdict) (map entry_of (option_to_list result)) }
    {
        match verdict {
            Matches::One(address) => Some(Entry::Meter(address)),
            Matches::Several if self.len == 8 => Some(Entry::Shared(Number {
                digits: self.digits,
            })),
            _ => None,
        }
    }

    // The first of the beginnings that are one digit longer.
    fn deeper(&self) -> Beginning
        requires { self.now.len < 8 }
        ensures { digits_of result ≡ longer (digits_of self.now) 0 }
    {
        let mut digits = self.digits;
        digits[self.len] = 0;
        Beginning {
            digits,
            len: self.len + 1,
        }
    }

    // The next beginning where none longer than this one is probed.
    fn raised(&self) -> Option<Beginning>
        ensures { followed result ≡ raised (digits_of self.now) }
    {
        // from the back, each turn over what stands before the last digit
        let mut kept = &self.digits[..self.len];
        loop {
            let (last, front) = kept.split_last()?;
            if *last < 9 {
                let mut digits = self.digits;
                digits[front.len()] = *last + 1;
                let len = kept.len();
                return Some(Beginning { digits, len });
            }
            kept = front;
        }
    }

    // The beginning to probe after this one.
    pub fn after(&self, verdict: Matches<Address>) -> Option<Beginning>
        ensures next { followed result ≡ upnext 8 (digits_of self.now) (verdict_of verdict) }
        ensures leads { Leads number 8 (digits_of self.now) (verdict_of verdict) (followed result) }
    {
        match verdict {
            Matches::Several if self.len < 8 => Some(self.deeper()),
            _ => self.raised(),
        }
    }
}
