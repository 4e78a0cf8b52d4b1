// Faults of records.
ghost use Rattle.record.specs.Faults.{record_report};

use link::fault::{Fault, Layer, Report};

// Why a record is refused, with the place of the offending byte.
#[derive(Clone, Copy)]
pub enum RecordFault {
    // a data field that is reserved
    DataField { place: usize },
    // an eleventh extension byte
    Chain { place: usize },
    // a VIF without a meaning
    Vif { place: usize },
    // a digit above 9
    Digit { place: usize },
    // a length of text that is reserved
    TextLength { place: usize },
    // the body ends inside the record; the place is the body's end
    Ended { place: usize },
}

impl Fault for RecordFault {
    ghost reported = { record_report };

    fn report(&self) -> Report {
        let (number, place) = match *self {
            RecordFault::DataField { place } => (11, place),
            RecordFault::Chain { place } => (12, place),
            RecordFault::Vif { place } => (13, place),
            RecordFault::Digit { place } => (14, place),
            RecordFault::TextLength { place } => (15, place),
            RecordFault::Ended { place } => (16, place),
        };
        Report {
            layer: Layer::Record,
            place: Some(place),
            number,
        }
    }
}
