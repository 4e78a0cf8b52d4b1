// The sizes of a capture.
use std::fmt;

#[derive(Drop)]
pub struct CaptureLine {
    pub meters: usize,
    pub telegrams: usize,
}

impl fmt::Display for CaptureLine {
    fn fmt<W: fmt::Write>(&self, f: &mut fmt::Formatter<W>) -> fmt::Result {
        write!(
            f,
            "kind=capture meters={} telegrams={}",
            self.meters, self.telegrams
        )
    }
}
