// A reading.
use crate::hex::Hex;
use record::reading::{Reading, Value};
use std::fmt;

// A reading, with the bytes of its VIFEs and of its text, if it has one.
#[derive(Drop)]
pub struct ReadingLine<'a> {
    pub reading: Reading,
    pub vifes: &'a [u8],
    pub text: &'a [u8],
}

// The form and the figure of a value.
#[derive(Drop)]
struct Figure<'a> {
    value: Value,
    text: &'a [u8],
}

impl fmt::Display for Figure<'_> {
    fn fmt<W: fmt::Write>(&self, f: &mut fmt::Formatter<W>) -> fmt::Result {
        match self.value {
            Value::NoData => f.write_str("form=none figure=-"),
            Value::Integer(number) => write!(f, "form=whole figure={number}"),
            Value::Real(pattern) => write!(f, "form=real figure={pattern:08X}"),
            Value::Text(_) => write!(f, "form=text figure={}", Hex(self.text)),
        }
    }
}

impl fmt::Display for ReadingLine<'_> {
    fn fmt<W: fmt::Write>(&self, f: &mut fmt::Formatter<W>) -> fmt::Result {
        let Reading {
            place,
            tariff,
            storage,
            subunit,
            vifes: _,
            function,
            value,
            meaning,
        } = self.reading;
        write!(
            f,
            "kind=reading place={place} storage={storage} tariff={tariff} sub={subunit} "
        )?;
        write!(
            f,
            "function={} quantity={} ",
            function as u8,
            u8::from(meaning.quantity)
        )?;
        let text = self.text;
        write!(f, "{} ", Figure { value, text })?;
        write!(
            f,
            "power={} unit={} vifes={}",
            meaning.power,
            meaning.unit,
            Hex(self.vifes)
        )
    }
}
