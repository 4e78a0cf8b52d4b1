// What a search lists.
use telegram::address::Address;

// A number of eight digits, highest first.
#[derive(Clone, Copy)]
pub struct Number {
    pub digits: [u8; 8],
}

// What a place for an entry holds before a meter is found. No `Option`: places hold entries, and how many do is told.
pub const NOTHING: Entry = Entry::Shared(Number { digits: [0; 8] });

#[derive(Clone, Copy)]
pub enum Entry {
    // The only meter with its number.
    Meter(Address),
    // A number that several meters share.
    Shared(Number),
}
