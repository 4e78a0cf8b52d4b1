// Why a capture is refused.
ghost use Rattle.std.specs.Prelude.{◌≡◌, Some, None};
ghost use Rattle.capture.specs.declared.fault.Cause.TheVariants.{Reply};
ghost use Rattle.capture.specs.Faults.{capture_report};

use link::fault::{Fault, Layer, Report};
use telegram::fault::ReplyFault;

#[derive(Clone, Copy)]
pub enum Cause {
    // too many bytes, too many meters, or too many telegrams of one meter
    Size,
    // a telegram is no reply telegram: the reply's fault, whole
    Reply(ReplyFault),
}

#[derive(Clone, Copy)]
pub struct CaptureFault {
    // the number of the telegram that the fault is in, from 1; none where there are too many bytes
    pub telegram: Option<usize>,
    pub cause: Cause,
}

impl From<ReplyFault> for CaptureFault {
    ghost from_gives = { λ fault r. (r.telegram ≡ None) × (r.cause ≡ Reply fault) };

    fn from(fault: ReplyFault) -> CaptureFault {
        CaptureFault {
            telegram: None,
            cause: Cause::Reply(fault),
        }
    }
}

impl CaptureFault {
    // The same fault, in the telegram of that number.
    pub(crate) fn in_telegram(self, number: usize) -> CaptureFault
        ensures telegram { result.telegram ≡ Some number }
        ensures cause { result.cause ≡ self.cause }
    {
        CaptureFault {
            telegram: Some(number),
            cause: self.cause,
        }
    }
}

impl Fault for CaptureFault {
    ghost reported = { capture_report };

    // The fault's layer, place and number; the place counts in the telegram.
    fn report(&self) -> Report {
        match self.cause {
            Cause::Size => Report {
                layer: Layer::Making,
                place: None,
                number: 21,
            },
            Cause::Reply(fault) => fault.report(),
        }
    }
}
