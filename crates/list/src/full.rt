// The refusal of a list whose places are all used.
ghost use Rattle.list.specs.Faults.{full_report};

use link::fault::{Fault, Layer, Report};

// No place is left for an entry.
#[derive(Clone, Copy)]
pub struct Full;

impl Fault for Full {
    ghost reported = { λ _. full_report };

    // The fault's layer and number; it has no place.
    fn report(&self) -> Report {
        Report {
            layer: Layer::Master,
            place: None,
            number: 17,
        }
    }
}
