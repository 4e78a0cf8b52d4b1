// Why a bench is refused.
ghost use Rattle.bench.specs.Faults.{bench_report};

use link::fault::{Fault, Layer, Report};

#[derive(Clone, Copy)]
pub enum BenchFault {
    // too many rows, bytes of the area, or codes
    Size,
    // a bad row, by its number from 0
    Row { number: usize },
    // a bad code, by its number from 0
    Code { number: usize },
}

impl Fault for BenchFault {
    ghost reported = { bench_report };

    // The fault's layer, place and number; the place is the number of the row or code.
    fn report(&self) -> Report {
        let (number, place) = match *self {
            BenchFault::Size => (21, None),
            BenchFault::Row { number } => (22, Some(number)),
            BenchFault::Code { number } => (22, Some(number)),
        };
        Report {
            layer: Layer::Making,
            place,
            number,
        }
    }
}
