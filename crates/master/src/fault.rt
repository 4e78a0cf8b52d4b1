// What a search reports, and why a master refuses.
ghost use Rattle.list.specs.Faults.{full_report};
ghost use Rattle.master.specs.Faults.{fetch_report};

use link::fault::{Fault, Layer, Report};
use list::full::Full;

// How many entries a search listed, and how many selections it sent.
#[derive(Clone, Copy)]
pub struct Summary {
    pub entries: usize,
    pub selections: u32,
}

// An entry found no place. The entries before it stand.
#[derive(Clone, Copy)]
pub struct SearchFault {
    pub summary: Summary,
}

impl Fault for SearchFault {
    ghost reported = { λ _. full_report };

    // The fault's layer and number; it has no place.
    fn report(&self) -> Report {
        Full.report()
    }
}

// Why a fetch gave no telegram.
#[derive(Clone, Copy)]
pub enum FetchFault {
    // no reply came to the pick, so nothing was sent
    Unanswered,
    // a reply came that is no reply telegram
    Garbled,
    // no reply came
    Silent,
}

impl Fault for FetchFault {
    ghost reported = { fetch_report };

    // The fault's layer and number; it has no place.
    fn report(&self) -> Report {
        let number = match self {
            FetchFault::Unanswered => 18,
            FetchFault::Garbled => 19,
            FetchFault::Silent => 20,
        };
        Report {
            layer: Layer::Master,
            place: None,
            number,
        }
    }
}
