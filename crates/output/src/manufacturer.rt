// Manufacturer's data.
use crate::hex::Hex;
use std::fmt;

#[derive(Drop)]
pub struct ManufacturerLine<'a> {
    pub place: usize,
    pub bytes: &'a [u8],
}

impl fmt::Display for ManufacturerLine<'_> {
    fn fmt<W: fmt::Write>(&self, f: &mut fmt::Formatter<W>) -> fmt::Result {
        write!(
            f,
            "kind=maker place={} bytes={}",
            self.place,
            Hex(self.bytes)
        )
    }
}
