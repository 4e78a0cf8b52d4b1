// Writing one frame into a telegram buffer.
ghost use Rattle.std.specs.Prelude.{◌≡◌, ◌≤◌, length, take, is_ok, IfOk, if◌then◌else◌, Some};
ghost use Rattle.link.specs.Buffers.{filled};
ghost use Rattle.link.specs.Faults.{frame_fault};
ghost use Rattle.link.specs.Frames.{long_parts, parts, write_refusal, written};
ghost use Rattle.link.specs.Laws.{Reads};

use crate::buffer::{Buffer, append, fill};
use crate::fault::FrameFault;
use crate::frame::{Frame, LongFrame};
use crate::reading::checksum;

// The most data that a long frame holds: L, at most 255, counts three bytes more.
const MOST_DATA: usize = 252;

impl LongFrame<'_> {
    // Fills the buffer with the frame, then 00, and answers the count of the frame's bytes.
    fn write(&self, buffer: &mut Buffer) -> usize
        requires { length self.now.«data».now ≤ 252 }
        ensures buffer { buffer.new ≡ filled (written (long_parts self.now)) }
        ensures count { result ≡ length (written (long_parts self.now)) }
    {
        let length = (self.data.len() + 3) as u8;
        let start = fill(
            buffer,
            &[
                0x68,
                length,
                length,
                0x68,
                self.control,
                self.address,
                self.information,
            ],
        );
        let end = append(buffer, start, self.data);
        let sum = checksum(&buffer[4..end]);
        append(buffer, end, &[sum, 0x16])
    }
}

impl Frame<'_> {
    // Fills the buffer with the frame, then 00, and answers the count of the frame's bytes.
    // More than 252 bytes of data are refused, and the buffer keeps what it had.
    pub fn write(&self, buffer: &mut Buffer) -> Result<usize, FrameFault>
        ensures fault { frame_fault result ≡ write_refusal (parts self.now) }
        ensures count { IfOk result (λ n. n ≡ length (written (parts self.now))) }
        ensures buffer { buffer.new ≡ (if is_ok result then filled (written (parts self.now)) else buffer.old) }
        ensures readable { IfOk result (λ n. Reads (take n buffer.new) (Some (parts self.now))) }
    {
        match *self {
            Frame::Ack => Ok(fill(buffer, &[0xe5])),
            Frame::Short { control, address } => {
                let sum = control.wrapping_add(address);
                Ok(fill(buffer, &[0x10, control, address, sum, 0x16]))
            }
            Frame::Long(frame) => {
                if frame.data.len() > MOST_DATA {
                    return Err(FrameFault::Oversize);
                }
                Ok(frame.write(buffer))
            }
        }
    }
}
