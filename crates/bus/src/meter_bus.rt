// A table of meters with what they remember, and one exchange with them: without a fault, or with one of three faults.
ghost use Rattle.std.specs.Prelude.{◌≡◌, ℕ, ◌<◌, List, [], length};
ghost use Rattle.link.specs.Buffers.{filled};
ghost use Rattle.line.specs.Exchanges.{Exchanged, State, cleared, due_to, faulted};
ghost use Rattle.bus.specs.Memories.{Hears, at_rest, bus_of};
ghost use Rattle.bus.specs.Replies.{arriving, damaged, due_from};

use crate::due::{DueReply, damage, deliver};
use crate::memory::Memory;
use crate::table::Table;
use link::buffer::{Buffer, fill};
use telegram::request::Request;

// A request and the buffer for its reply come apart, as they come to `Line::exchange`; what is heard relates the meters
// before and after, so it stands at each call and in no type.
#[derive(Drop)]
pub struct MeterBus<T> {
    table: T,
    memory: Memory,
}

impl<T: Table> MeterBus<T> {
    // Meters that have heard nothing yet.
    pub fn new(table: T) -> MeterBus<T>
        ensures table { result.table ≡ table }
        ensures bus { bus_of T.meters result ≡ at_rest (T.meters table) }
    {
        let memory = Memory::new(None);
        MeterBus { table, memory }
    }

    // How many meters there are.
    pub fn count(&self) -> usize
        ensures { result ≡ length (T.meters self.now.table) }
    {
        self.table.count()
    }

    // Hears a request. The reply that is due then.
    fn hear(&mut self, request: &[u8]) -> DueReply
        ensures hears { Hears T.meters request.now self.old self.new }
        ensures due { due_from (T.meters self.new.table) result ≡ due_to request.now (bus_of T.meters self.old) }
    {
        let heard = Request::read(request);
        self.memory.hear(&self.table, &heard);
        self.memory.due(&self.table, &heard)
    }

    // The request is heard, and the due reply arrives. Fills the buffer with it and then 00, and answers the count
    // of its bytes. Several replies at once arrive as the byte 00.
    pub fn answer(&mut self, request: &[u8], reply: &mut Buffer) -> usize
        ensures hears { Hears T.meters request.now self.old self.new }
        ensures buffer { reply.new ≡ filled (arriving (due_to request.now (bus_of T.meters self.old))) }
        ensures count { result ≡ length (arriving (due_to request.now (bus_of T.meters self.old))) }
        ensures exchanged { (s : State) → s.bus ≡ bus_of T.meters self.old → Exchanged s request.now result reply.new (cleared s (bus_of T.meters self.new)) }
    {
        let due = self.hear(request);
        deliver(&self.table, due, reply)
    }

    // A request is lost on its way out: no meter hears it, and the buffer is all 00.
    pub fn lose_request(&self, reply: &mut Buffer) -> usize
        ensures buffer { reply.new ≡ filled [] }
        ensures count { result ≡ 0 }
        ensures exchanged { (s : State) (request : List ℕ) → s.streak < s.run → Exchanged s request result reply.new (faulted s s.bus) }
    {
        fill(reply, &[])
    }

    // The request is heard, and the reply is lost on its way back: the buffer is all 00.
    pub fn lose_reply(&mut self, request: &[u8], reply: &mut Buffer) -> usize
        ensures hears { Hears T.meters request.now self.old self.new }
        ensures buffer { reply.new ≡ filled [] }
        ensures count { result ≡ 0 }
        ensures exchanged { (s : State) → s.bus ≡ bus_of T.meters self.old → s.streak < s.run → Exchanged s request.now result reply.new (faulted s (bus_of T.meters self.new)) }
    {
        self.memory.hear(&self.table, &Request::read(request));
        deliver(&self.table, DueReply::Silence, reply)
    }

    // The request is heard, and the reply is damaged on its way back: the byte 00 arrives in its place.
    pub fn damage_reply(&mut self, request: &[u8], reply: &mut Buffer) -> usize
        ensures hears { Hears T.meters request.now self.old self.new }
        ensures buffer { reply.new ≡ filled (damaged (due_to request.now (bus_of T.meters self.old))) }
        ensures count { result ≡ length (damaged (due_to request.now (bus_of T.meters self.old))) }
        ensures exchanged { (s : State) → s.bus ≡ bus_of T.meters self.old → s.streak < s.run → Exchanged s request.now result reply.new (faulted s (bus_of T.meters self.new)) }
    {
        let due = self.hear(request);
        damage(due, reply)
    }
}
