// Reply telegrams: what a meter answers to a fetch.
ghost use Rattle.std.specs.Prelude.{◌≡◌, ◌+◌, ◌≤◌, true, ◌++◌, length, take, drop, is_ok, IfOk, if◌then◌else◌, Decides};
ghost use Rattle.link.specs.Buffers.{filled};
ghost use Rattle.link.specs.Checks.{FailsFirst, first_fault};
ghost use Rattle.link.specs.Faults.{frame_fault};
ghost use Rattle.link.specs.Frames.{frame_refusal, long_parts, written};
ghost use Rattle.telegram.specs.Faults.{Rises, reply_fault};
ghost use Rattle.telegram.specs.Replies.{Garbled, ReadsReply, ReplyIn, answers, body_of, head_of, body_refusal, is_ack, is_reply, long_reply_checks, reply_checks, reply_parts, reply_refusal};

use crate::address::Address;
use crate::fault::ReplyFault;
use link::buffer::{Buffer, append};
use link::fault::FrameFault;
use link::frame::{Frame, LongFrame};

// A reply telegram, apart from its body.
#[derive(Clone, Copy)]
pub struct Reply {
    // the byte A
    pub primary: u8,
    pub address: Address,
    // the access number
    pub access: u8,
    pub status: u8,
    pub signature: u16,
}

// The most bytes of a body: the data of a long frame, less the twelve bytes before the body.
const MOST_BODY: usize = 240;

impl Reply {
    // The reply telegram that the bytes are, or the first fault in them.
    pub fn read(bytes: &[u8]) -> Result<Reply, ReplyFault>
        ensures fault { reply_fault result ≡ reply_refusal bytes.now }
        ensures order { FailsFirst (reply_checks bytes.now) (reply_fault result) }
        ensures rises { Rises (frame_refusal bytes.now) result }
        ensures reads { ReadsReply bytes.now result }
    {
        let frame = Frame::read(bytes)?;
        Reply::try_from(frame)
    }

    // The reply telegram that a long frame is, or the first fault in it. By index, since the length is tested in its turn.
    fn from_long(frame: LongFrame) -> Result<Reply, ReplyFault>
        ensures fault { reply_fault result ≡ first_fault (long_reply_checks frame.entry.control frame.entry.information frame.entry.«data».now) }
        ensures parts { IfOk result (λ t. reply_parts t (drop 12 frame.entry.«data».now) ≡ long_parts frame.entry) }
    {
        if frame.control != 0x08 {
            return Err(ReplyFault::NotReply { place: 4 });
        }
        if frame.information != 0x72 {
            return Err(ReplyFault::NotReply { place: 6 });
        }
        let data = frame.data;
        if data.len() < 12 {
            return Err(ReplyFault::NotReply { place: 1 });
        }
        Ok(Reply {
            primary: frame.address,
            address: Address::at(data, 7)?,
            access: data[8],
            status: data[9],
            signature: u16::from_le_bytes([data[10], data[11]]),
        })
    }

    // The body of a reply telegram, which begins at place 19 and ends before the checksum.
    // Empty in what is too short for one.
    pub fn body(bytes: &[u8]) -> &[u8]
        ensures { result.now ≡ body_of bytes.now }
    {
        if bytes.len() < 21 {
            return &bytes[0..0];
        }
        &bytes[19..bytes.len() - 2]
    }

    // The data of the reply telegram before its body.
    fn head(self) -> [u8; 12]
        ensures { result ≡ head_of self }
    {
        let [a, b, c, d, e, f, g, h] = self.address.bytes();
        let [low, high] = self.signature.to_le_bytes();
        [a, b, c, d, e, f, g, h, self.access, self.status, low, high]
    }

    // Fills the buffer with the reply telegram that has this body, then 00, and answers the count of its bytes.
    // A body over 240 bytes is refused, and the buffer keeps what it had.
    pub fn write(&self, body: &[u8], buffer: &mut Buffer) -> Result<usize, FrameFault>
        ensures fault { frame_fault result ≡ body_refusal body.now }
        ensures count { IfOk result (λ n. n ≡ length (written (reply_parts self.now body.now))) }
        ensures buffer { buffer.new ≡ (if is_ok result then filled (written (reply_parts self.now body.now)) else buffer.old) }
        ensures readable { IfOk result (λ n. is_reply (take n buffer.new) ≡ true) }
    {
        if body.len() > MOST_BODY {
            return Err(FrameFault::Oversize);
        }
        let mut data = [0; 252];
        let start = append(&mut data, 0, &self.head());
        let end = append(&mut data, start, body);
        let frame = LongFrame {
            control: 0x08,
            address: self.primary,
            information: 0x72,
            data: &data[0..end],
        };
        Frame::Long(frame).write(buffer)
    }
}

// The reply telegram that a frame is, or the first fault in it.
impl TryFrom<Frame<'_>> for Reply {
    type Error = ReplyFault;

    ghost try_from_gives = { ReplyIn };

    fn try_from(frame: Frame<'_>) -> Result<Reply, ReplyFault> {
        match frame {
            Frame::Long(frame) => Reply::from_long(frame),
            _ => Err(ReplyFault::NotReply { place: 0 }),
        }
    }
}

// The acknowledgement alone.
fn is_ack_alone(bytes: &[u8]) -> bool
    ensures { result ≡ is_ack bytes.now }
{
    matches!(bytes, [0xe5])
}

// An answer: the acknowledgement alone, or a reply telegram.
fn is_answer(bytes: &[u8]) -> bool
    ensures { result ≡ answers bytes.now }
{
    is_ack_alone(bytes) | Reply::read(bytes).is_ok()
}

// As many bytes as can arrive: the size of a telegram buffer.
const MOST_BYTES: usize = 261;

// Whether the bytes are garbled: 1 to 261 bytes that are no answer.
pub fn is_garbled(bytes: &[u8]) -> bool
    ensures { Decides result (Garbled bytes.now) }
{
    (1..=MOST_BYTES).contains(&bytes.len()) && !is_answer(bytes)
}
