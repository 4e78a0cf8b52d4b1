// The bench as a line.
ghost use Rattle.std.specs.Prelude.{◌≡◌};
ghost use Rattle.line.specs.Exchanges.{Exchanged};
ghost use Rattle.line.specs.Layering.{layered_none, one_try};
ghost use Rattle.line.specs.Soundness.{sound_out};
ghost use Rattle.bench.specs.Benches.{Befalls, meaning, single};

use super::Bench;
use crate::fault_codes::Code;
use line::line::Line;
use link::buffer::Buffer;

// Not shared with a capture: a generic line would be given what it means and why it is sound, which is all that
// these members say.
impl Line for Bench {
    ghost means = { meaning };

    ghost base = { meaning };

    ghost tries = { single };

    ghost sound = { λ x. sound_out (meaning x) x.sound };

    ghost tried = { λ _. one_try };

    ghost layered = { λ x. layered_none (meaning x) };

    // One exchange, which the next code befalls.
    fn exchange(&mut self, request: &[u8], reply: &mut Buffer) -> usize
        ensures exchanged { Exchanged (meaning self.old) request.now result reply.new (meaning self.new) }
        ensures layers { single self.new ≡ single self.old }
        ensures befalls { Befalls self.old request.now result reply.new self.new }
    {
        // four ways of one call each, by an enum that says which
        match self.faults.next() {
            Code::Clean => self.bus.answer(request, reply),
            Code::LostOut => self.bus.lose_request(reply),
            Code::LostBack => self.bus.lose_reply(request, reply),
            Code::Damaged => self.bus.damage_reply(request, reply),
        }
    }
}
