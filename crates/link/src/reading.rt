// Reading one frame from bytes.
ghost use Rattle.std.specs.Prelude.{◌≡◌, ◌+◌, ◌≤◌, IfOk, slice_index};
ghost use Rattle.link.specs.Checks.{FailsFirst, first_fault};
ghost use Rattle.link.specs.Faults.{frame_fault};
ghost use Rattle.link.specs.Frames.{checksum as summed, end_checks, ack_checks, short_checks, long_checks, frame_checks, frame_refusal, frame_of, parts, parts_read, written};
ghost use Rattle.link.specs.Laws.{Reads};

use crate::fault::FrameFault;
use crate::frame::{Frame, LongFrame};

// The sum of the bytes modulo 256. A loop that counts nothing; a fold is no plainer.
pub(crate) fn checksum(bytes: &[u8]) -> u8
    ensures { result ≡ summed bytes.now }
{
    let mut sum: u8 = 0;
    for b in bytes {
        sum = sum.wrapping_add(*b);
    }
    sum
}

// The checks that end the reading of a frame of `size` bytes whose sum starts at `from`.
fn check_end(bytes: &[u8], from: usize, size: usize) -> Result<(), FrameFault>
    requires { from + 2 ≤ size }
    ensures { frame_fault result ≡ first_fault (end_checks from size bytes.now) }
{
    let given = bytes.len();
    if given < size {
        return Err(FrameFault::TooFew { given });
    }
    if given > size {
        return Err(FrameFault::TooMany { place: size });
    }
    if bytes[size - 1] != 0x16 {
        return Err(FrameFault::Stop { place: size - 1 });
    }
    if bytes[size - 2] != checksum(&bytes[from..size - 2]) {
        return Err(FrameFault::Checksum { place: size - 2 });
    }
    Ok(())
}

// That a frame's bytes are those given relates a result to an argument, so it stands in each reader and in no type.

// An acknowledgement, once it begins with E5.
fn read_ack(bytes: &[u8]) -> Result<Frame<'_>, FrameFault>
    requires { slice_index bytes.now 0 ≡ 0xe5 }
    ensures fault { frame_fault result ≡ first_fault (ack_checks bytes.now) }
    ensures bytes { IfOk result (λ f. written (parts f) ≡ bytes.now) }
{
    if bytes.len() > 1 {
        return Err(FrameFault::TooMany { place: 1 });
    }
    Ok(Frame::Ack)
}

// A frame that begins with 10.
fn read_short(bytes: &[u8]) -> Result<Frame<'_>, FrameFault>
    requires { slice_index bytes.now 0 ≡ 0x10 }
    ensures fault { frame_fault result ≡ first_fault (short_checks bytes.now) }
    ensures bytes { IfOk result (λ f. written (parts f) ≡ bytes.now) }
{
    check_end(bytes, 1, 5)?;
    Ok(Frame::Short {
        control: bytes[1],
        address: bytes[2],
    })
}

// A frame that begins with 68.
fn read_long(bytes: &[u8]) -> Result<Frame<'_>, FrameFault>
    requires { slice_index bytes.now 0 ≡ 0x68 }
    ensures fault { frame_fault result ≡ first_fault (long_checks bytes.now) }
    ensures bytes { IfOk result (λ f. written (parts f) ≡ bytes.now) }
{
    let given = bytes.len();
    if given < 4 {
        return Err(FrameFault::TooFew { given });
    }
    let length = bytes[1];
    if length < 3 {
        return Err(FrameFault::Header { place: 1 });
    }
    if bytes[2] != length {
        return Err(FrameFault::Header { place: 2 });
    }
    if bytes[3] != 0x68 {
        return Err(FrameFault::Header { place: 3 });
    }
    let size = length as usize + 6;
    check_end(bytes, 4, size)?;
    Ok(Frame::Long(LongFrame {
        control: bytes[4],
        address: bytes[5],
        information: bytes[6],
        data: &bytes[7..size - 2],
    }))
}

// The frame that the bytes are, by the first of them.
#[tactic(auto, unfolding(crate::specs::Frames::frame_refusal))]
fn read_any(bytes: &[u8]) -> Result<Frame<'_>, FrameFault>
    ensures fault { frame_fault result ≡ frame_refusal bytes.now }
    ensures bytes { IfOk result (λ f. written (parts f) ≡ bytes.now) }
{
    match bytes.first() {
        None => Err(FrameFault::Empty),
        Some(0xe5) => read_ack(bytes),
        Some(0x10) => read_short(bytes),
        Some(0x68) => read_long(bytes),
        _ => Err(FrameFault::Start),
    }
}

impl<'a> Frame<'a> {
    // The frame that the bytes are, or the first fault in them.
    pub fn read(bytes: &'a [u8]) -> Result<Frame<'a>, FrameFault>
        ensures fault { frame_fault result ≡ frame_refusal bytes.now }
        ensures order { FailsFirst (frame_checks bytes.now) (frame_fault result) }
        ensures frame { parts_read result ≡ frame_of bytes.now }
        ensures reads { Reads bytes.now (parts_read result) }
    {
        read_any(bytes)
    }
}
