// Faults of reply telegrams and addresses.
ghost use Rattle.std.specs.Prelude.{◌≡◌};
ghost use Rattle.telegram.specs.declared.fault.ReplyFault.TheVariants.{Frame};
ghost use Rattle.telegram.specs.Faults.{reply_report};

use link::fault::{Fault, FrameFault, Layer, Report};

// Why some bytes are no reply telegram, or no address.
#[derive(Clone, Copy)]
pub enum ReplyFault {
    // they are no frame: the frame's fault, whole
    Frame(FrameFault),
    // a frame, but no reply telegram
    NotReply { place: usize },
    // a digit above 9 in the number
    Digit { place: usize },
}

impl Fault for ReplyFault {
    ghost reported = { reply_report };

    fn report(&self) -> Report {
        let (number, place) = match *self {
            ReplyFault::Frame(fault) => return fault.report(),
            ReplyFault::NotReply { place } => (9, place),
            ReplyFault::Digit { place } => (10, place),
        };
        Report {
            layer: Layer::Reply,
            place: Some(place),
            number,
        }
    }
}

impl From<FrameFault> for ReplyFault {
    ghost from_gives = { λ e r. r ≡ Frame e };

    fn from(inner: FrameFault) -> ReplyFault {
        ReplyFault::Frame(inner)
    }
}
