// A line: what it means, and one exchange on it.
ghost use Rattle.std.specs.Prelude.{◌≡◌, ℕ, ◌<◌};
ghost use Rattle.line.specs.Exchanges.{Exchanged, Sound, State};
ghost use Rattle.line.specs.Layers.{divided};

use link::buffer::Buffer;

pub trait Line {
    // The meters, what they remember, and the faults that may befall the line.
    ghost means: { Self → State };

    // The meaning of the line below all layers; of a line that is no layer, its own.
    ghost base: { Self → State };

    // The product of the layers' tries; 1 where there is no layer.
    ghost tries: { Self → ℕ };

    // What holds of every value. Members and no laws, so that a line may borrow.
    ghost sound: { (x : Self) → Sound (means x) };

    ghost tried: { (x : Self) → 0 < tries x };

    ghost layered: { (x : Self) → means x ≡ divided (tries x) (base x) };

    // No heap: the reply comes into memory that is handed in, and its count beside it.
    // Sends a request of any bytes, and fills the buffer with the reply and then 00.
    // Answers the count of the reply's bytes; silence counts 0.
    fn exchange(&mut self, request: &[u8], reply: &mut Buffer) -> usize
        ensures exchanged { Exchanged (means self.old) request.now result reply.new (means self.new) }
        ensures layers { tries self.new ≡ tries self.old };
}
