// The capture as a line.
ghost use Rattle.std.specs.Prelude.{◌≡◌};
ghost use Rattle.line.specs.Exchanges.{Exchanged};
ghost use Rattle.line.specs.Layering.{layered_none, one_try};
ghost use Rattle.line.specs.Soundness.{sound_out};
ghost use Rattle.capture.specs.Captures.{Answers, meaning, single};

use super::Capture;
use line::line::Line;
use link::buffer::Buffer;

// Not shared with a bench: a generic line would be given what it means and why it is sound, which is all that
// these members say.
impl Line for Capture {
    ghost means = { meaning };

    ghost base = { meaning };

    ghost tries = { single };

    ghost sound = { λ x. sound_out (meaning x) x.sound };

    ghost tried = { λ _. one_try };

    ghost layered = { λ x. layered_none (meaning x) };

    // One exchange, never with a fault.
    fn exchange(&mut self, request: &[u8], reply: &mut Buffer) -> usize
        ensures exchanged { Exchanged (meaning self.old) request.now result reply.new (meaning self.new) }
        ensures layers { single self.new ≡ single self.old }
        ensures answers { Answers self.old request.now result reply.new self.new }
    {
        self.bus.answer(request, reply)
    }
}
