// What a search lists.
use crate::reply::AddressFields;
use search::entry::Entry;
use std::fmt;

// A meter by its address, or a number that several meters share.
#[derive(Drop)]
pub struct EntryLine(pub Entry);

impl fmt::Display for EntryLine {
    fn fmt<W: fmt::Write>(&self, f: &mut fmt::Formatter<W>) -> fmt::Result {
        match self.0 {
            Entry::Meter(address) => { write!(f, "kind=meter {}", AddressFields(address)) }
            Entry::Shared(number) => {
                let [a, b, c, d, e, g, h, i] = number.digits;
                write!(f, "kind=shared no={a}{b}{c}{d}{e}{g}{h}{i}")
            }
        }
    }
}
