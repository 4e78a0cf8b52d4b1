// A bench that was made.
use std::fmt;

// How many meters, fault codes and layers it has.
#[derive(Clone, Copy)]
pub struct SizesLine {
    pub meters: usize,
    pub codes: usize,
    pub layers: usize,
}

impl fmt::Display for SizesLine {
    fn fmt<W: fmt::Write>(&self, f: &mut fmt::Formatter<W>) -> fmt::Result {
        write!(
            f,
            "kind=bench meters={} codes={} layers={}",
            self.meters, self.codes, self.layers
        )
    }
}
