// Readings: what one record says. Its variable parts are told by place and length, so that it borrows nothing.
use quantity::meaning::Meaning;

// When the value was taken.
#[derive(Clone, Copy)]
pub enum Function {
    Instantaneous,
    Maximum,
    Minimum,
    DuringError,
}

// A part of the telegram.
#[derive(Clone, Copy)]
pub struct Span {
    pub place: usize,
    pub len: usize,
}

#[derive(Clone, Copy)]
pub enum Value {
    // a kind of value, told and printed as the others
    NoData,
    Integer(i64),
    // a real number of 32 bits, as its bit pattern
    Real(u32),
    Text(Span),
}

// The narrow fields stand apart, each beside a wide one, so that copying a reading does not join them.
#[derive(Clone, Copy)]
pub struct Reading {
    // of its first byte
    pub place: usize,
    pub tariff: u32,
    pub storage: u64,
    pub subunit: u16,
    pub vifes: Span,
    pub function: Function,
    pub value: Value,
    pub meaning: Meaning,
}
