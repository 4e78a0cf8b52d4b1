// The requests of a master. All go to the address FD, behind which the selected meters answer.
ghost use Rattle.std.specs.Prelude.{◌≡◌, ◌≤◌, length, take, Some};
ghost use Rattle.link.specs.Buffers.{filled};
ghost use Rattle.link.specs.Frames.{data_size, parts, written};
ghost use Rattle.telegram.specs.Requests.{Understands, request_bytes, request_frame, request_in, request_of};

use crate::pattern::Pattern;
use link::buffer::Buffer;
use link::frame::{Frame, LongFrame};

// The address behind which the selected meters answer.
const SELECTED: u8 = 0xfd;

// The CI of a selection.
const SELECTION: u8 = 0x52;

// What a master asks.
#[derive(Clone, Copy)]
pub enum Request {
    // SND_UD with CI 52: selects the meters that the pattern fits
    Selection(Pattern),
    // REQ_UD2 with this frame count bit: the selected meter sends a telegram
    Fetch { bit: bool },
    // SND_NKE: selects no meter
    Release,
}

// Fills the buffer with a frame that is short enough.
fn write_frame(frame: &Frame, buffer: &mut Buffer) -> usize
    requires { data_size (parts frame.now) ≤ 252 }
    ensures buffer { buffer.new ≡ filled (written (parts frame.now)) }
    ensures count { result ≡ length (written (parts frame.now)) }
{
    frame.write(buffer).unwrap()
}

impl Request {
    // The request that the bytes are, if they are one.
    pub fn read(bytes: &[u8]) -> Option<Request>
        ensures value { result ≡ request_of bytes.now }
        ensures understands { Understands bytes.now result }
    {
        Frame::read(bytes).map_or(None, Request::of)
    }

    // The request that a frame is, if it is one.
    fn of(frame: Frame) -> Option<Request>
        ensures { result ≡ request_in (parts frame.entry) }
    {
        match frame {
            Frame::Short {
                control: 0x7b,
                address: SELECTED,
            } => Some(Request::Fetch { bit: true }),
            Frame::Short {
                control: 0x5b,
                address: SELECTED,
            } => Some(Request::Fetch { bit: false }),
            Frame::Short {
                control: 0x40,
                address: SELECTED,
            } => Some(Request::Release),
            Frame::Long(
                LongFrame {
                    control: 0x53 | 0x73,
                    address: SELECTED,
                    information: SELECTION,
                    data,
                },
            ) => {
                let bytes = <[u8; 8]>::try_from(data).ok()?;
                Some(Request::Selection(Pattern { bytes }))
            }
            _ => None,
        }
    }

    // The frame of the request.
    fn frame(&self) -> Frame<'_>
        ensures frame { parts result ≡ request_frame self.now }
        ensures short { data_size (parts result) ≤ 252 }
        ensures understood { request_in (parts result) ≡ Some self.now }
    {
        let control = match self {
            Request::Selection(pattern) => {
                return Frame::Long(LongFrame {
                    control: 0x53,
                    address: SELECTED,
                    information: SELECTION,
                    data: &pattern.bytes,
                });
            }
            Request::Fetch { bit: true } => 0x7b,
            Request::Fetch { bit: false } => 0x5b,
            Request::Release => 0x40,
        };
        Frame::Short {
            control,
            address: SELECTED,
        }
    }

    // Fills the buffer with the request, then 00, and answers the count of its bytes.
    pub fn write(&self, buffer: &mut Buffer) -> usize
        ensures buffer { buffer.new ≡ filled (request_bytes self.now) }
        ensures count { result ≡ length (request_bytes self.now) }
        ensures understood { request_of (take result buffer.new) ≡ Some self.now }
    {
        let frame = self.frame();
        write_frame(&frame, buffer)
    }
}
