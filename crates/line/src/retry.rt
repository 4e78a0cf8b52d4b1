// A layer over a line that tries each request several times.
ghost use Rattle.std.specs.Prelude.{◌≡◌, ◌+◌, ◌*◌, ◌≤◌, true, length, take, MatchResult};
ghost use Rattle.link.specs.Buffers.{filled};
ghost use Rattle.telegram.specs.Replies.{answers};
ghost use Rattle.line.specs.Exchanges.{Exchanged};
ghost use Rattle.line.specs.Faults.{limit_fault, limit_refusal};
ghost use Rattle.line.specs.Laws.{LayersMultiply};
ghost use Rattle.line.specs.Layering.{divided_sound, layered_more, more_tries};
ghost use Rattle.line.specs.Layers.{Tries, divided, last_reply};

use crate::fault::LimitFault;
use crate::line::Line;
use link::buffer::{Buffer, new_buffer};
use telegram::reply::is_garbled;

#[derive(Drop)]
pub struct Retry<L> {
    below: L,
    // how many tries may follow the first
    limit: u8,
    ghost small: { limit ≤ 7 },
}

const MOST_RETRIES: u8 = 7;

impl<L> Retry<L> {
    // A layer of limit + 1 tries. A limit above 7 is refused, and the line handed back.
    pub fn new(below: L, limit: u8) -> Result<Retry<L>, LimitFault<L>>
        ensures fault { limit_fault result ≡ limit_refusal limit }
        ensures line { MatchResult result (λ x. (x.below ≡ below) × (x.limit ≡ limit)) (λ e. e.line ≡ below) }
        ensures piles { LayersMultiply }
    {
        if limit > MOST_RETRIES {
            return Err(LimitFault { line: below });
        }
        Ok(Retry { below, limit })
    }

    // The line below.
    pub fn into_below(self) -> L
        ensures { result ≡ self.below }
    {
        self.below
    }
}

// Whether the reply of a try ends the tries.
fn is_answered(reply: &Buffer, count: usize) -> bool
    requires { count ≤ 261 }
    ensures { result ≡ answers (take count reply.now) }
{
    count > 0 && !is_garbled(&reply[0..count])
}

// The reply where no try was answered.
fn give_up(reply: &mut Buffer, silent: bool) -> usize
    ensures buffer { reply.new ≡ filled (last_reply silent) }
    ensures count { result ≡ length (last_reply silent) }
{
    *reply = new_buffer();
    if silent { 0 } else { 1 }
}

impl<L: Line> Line for Retry<L> {
    ghost means = { λ x. divided (x.limit + 1) (L.Line.means x.below) };

    ghost base = { λ x. L.Line.base x.below };

    ghost tries = { λ x. L.Line.tries x.below * (x.limit + 1) };

    ghost sound = { λ x. divided_sound x.limit (L.Line.means x.below) (L.Line.sound x.below) };

    ghost tried = { λ x. more_tries (L.Line.tries x.below) x.limit (L.Line.tried x.below) };

    ghost layered = { λ x. layered_more (x.limit + 1) (L.Line.tries x.below) (L.Line.means x.below) (L.Line.base x.below) (L.Line.layered x.below) };

    // Sends the request below until it is answered, at most limit + 1 times. Failing that, answers silence
    // if every try was silent, else the byte 00.
    fn exchange(&mut self, request: &[u8], reply: &mut Buffer) -> usize
        ensures exchanged { Exchanged (divided (self.old.limit + 1) (L.Line.means self.old.below)) request.now result reply.new (divided (self.new.limit + 1) (L.Line.means self.new.below)) }
        ensures layers { L.Line.tries self.new.below * (self.new.limit + 1) ≡ L.Line.tries self.old.below * (self.old.limit + 1) }
        ensures retried { Tries request.now (self.old.limit + 1) true (L.Line.means self.old.below) (take result reply.new) (L.Line.means self.new.below) }
        ensures limit { self.new.limit ≡ self.old.limit }
    {
        let tries = self.limit + 1;
        let mut silent = true;
        for _ in 0..tries {
            let count = self.below.exchange(request, reply);
            if is_answered(reply, count) {
                return count;
            }
            silent &= count == 0;
        }
        give_up(reply, silent)
    }
}
