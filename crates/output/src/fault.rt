// A fault.
use crate::optional::Optional;
use link::fault::Report;
use std::fmt;

// A fault, and the number of the telegram that it is in.
#[derive(Drop)]
pub struct FaultLine {
    pub telegram: Option<u64>,
    pub report: Report,
}

impl fmt::Display for FaultLine {
    fn fmt<W: fmt::Write>(&self, f: &mut fmt::Formatter<W>) -> fmt::Result {
        let Report {
            layer,
            place,
            number,
        } = self.report;
        write!(
            f,
            "kind=fault layer={layer} telegram={} place={} number={number}",
            Optional(self.telegram),
            Optional(place)
        )
    }
}
