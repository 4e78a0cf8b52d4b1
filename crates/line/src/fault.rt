// The refusal of a retry layer.
ghost use Rattle.line.specs.Faults.{limit_report};

use link::fault::{Fault, Layer, Report};

// The limit is above 7. The line is handed back.
#[derive(Drop)]
pub struct LimitFault<L> {
    pub line: L,
}

impl<L> Fault for LimitFault<L> {
    ghost reported = { λ _. limit_report };

    fn report(&self) -> Report {
        Report {
            layer: Layer::Making,
            place: None,
            number: 23,
        }
    }
}
