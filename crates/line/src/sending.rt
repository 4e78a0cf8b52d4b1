// Sending a request on any line.
ghost use Rattle.std.specs.Prelude.{◌≡◌, ◌<◌};
ghost use Rattle.line.specs.Laws.{HeardOnce};
ghost use Rattle.line.specs.Sending.{Sent};

use crate::line::Line;
use link::buffer::{Buffer, new_buffer};
use telegram::request::Request;

// Sends a request in one exchange, and fills the buffer with the reply and then 00.
// Answers the count of the reply's bytes. Where the run below all layers is less than their tries, no run shows.
pub fn send<L: Line>(line: &mut L, request: &Request, reply: &mut Buffer) -> usize
    ensures sent { Sent (L.means line.old) request.now result reply.new (L.means line.new) }
    ensures layers { L.tries line.new ≡ L.tries line.old }
    ensures shown { (L.base line.old).run < L.tries line.old → (L.means line.old).run ≡ 0 }
    ensures once { HeardOnce }
{
    let mut bytes = new_buffer();
    let count = request.write(&mut bytes);
    line.exchange(&bytes[0..count], reply)
}
