// Faults: what is refused is told by a layer, mostly a place, and a number.
ghost use Rattle.std.specs.Prelude.{◌≡◌, Some};
ghost use Rattle.link.specs.declared.fault.Report.{Report as Reported};
ghost use Rattle.link.specs.Faults.{frame_report, layer_name};

use std::fmt;

// The part of the protocol that a fault belongs to.
#[derive(Clone, Copy)]
pub enum Layer {
    Frame,
    Reply,
    Record,
    Master,
    Making,
}

// By the name that the programs print.
impl fmt::Display for Layer {
    ghost output = { λ layer. Some (layer_name layer) };

    fn fmt<W: fmt::Write>(&self, f: &mut fmt::Formatter<W>) -> fmt::Result {
        f.write_str(match self {
            Layer::Frame => "frame",
            Layer::Reply => "reply",
            Layer::Record => "record",
            Layer::Master => "master",
            Layer::Making => "making",
        })
    }
}

// A fault as it is told. Its number is what the programs print; the kinds themselves are the enums of faults. The place
// is the offset of the offending byte in its telegram.
#[derive(Clone, Copy)]
pub struct Report {
    pub layer: Layer,
    pub place: Option<usize>,
    pub number: u8,
}

// A fault of any kind.
pub trait Fault {
    // How the fault is told.
    ghost reported: { Self → Reported };

    // The fault's layer, its place if it has one, and its number.
    fn report(&self) -> Report
        ensures { result ≡ reported self.now };
}

// What was told already is told as it is.
impl Fault for Report {
    ghost reported = { λ report. report };

    fn report(&self) -> Report {
        *self
    }
}

// Why some bytes are no frame, or why a frame cannot be written.
#[derive(Clone, Copy)]
pub enum FrameFault {
    // no byte at all
    Empty,
    // the first byte starts no frame
    Start,
    // fewer bytes than the frame has
    TooFew { given: usize },
    // a long frame whose first four bytes are not 68 L L 68 with L at least 3
    Header { place: usize },
    // more bytes than the frame has
    TooMany { place: usize },
    // the last byte is not 16
    Stop { place: usize },
    // the checksum is wrong
    Checksum { place: usize },
    // more data than a long frame can hold
    Oversize,
}

impl Fault for FrameFault {
    ghost reported = { frame_report };

    fn report(&self) -> Report {
        let (number, place) = match *self {
            FrameFault::Empty => (1, Some(0)),
            FrameFault::Start => (2, Some(0)),
            FrameFault::TooFew { given } => (3, Some(given)),
            FrameFault::Header { place } => (4, Some(place)),
            FrameFault::TooMany { place } => (5, Some(place)),
            FrameFault::Stop { place } => (6, Some(place)),
            FrameFault::Checksum { place } => (7, Some(place)),
            FrameFault::Oversize => (8, None),
        };
        Report {
            layer: Layer::Frame,
            place,
            number,
        }
    }
}
