// The calls on a master, and what each gives.
ghost use Rattle.std.specs.Prelude.{◌≡◌, take};
ghost use Rattle.master.specs.Faults.{summary_of};

use link::buffer::Buffer;
use master::fault::{FetchFault, SearchFault, Summary};
use telegram::address::Address;

#[derive(Clone, Copy)]
pub enum Call {
    Search,
    Pick(Address),
    Fetch,
    Release,
}

// A telegram as it was fetched: the first `count` bytes of its buffer. No heap, and copied with its outcome: it has the
// memory of the longest one.
#[derive(Clone, Copy)]
pub struct Telegram {
    pub buffer: Buffer,
    pub count: usize,
}

impl Telegram {
    pub fn bytes(&self) -> &[u8]
        ensures { result.now ≡ take self.now.count self.now.buffer }
    {
        &self.buffer[..self.count.min(self.buffer.len())]
    }
}

// What a search reports. Its entries stand from the place `from` on.
#[derive(Clone, Copy)]
pub struct Found {
    pub from: usize,
    pub result: Result<Summary, SearchFault>,
}

impl Found {
    // How many entries it listed and how many selections it sent, also where an entry found no place.
    pub fn summary(&self) -> Summary
        ensures { result ≡ summary_of self.now.result }
    {
        self.result.unwrap_or_else(|fault| fault.summary)
    }
}

#[derive(Clone, Copy)]
pub enum Outcome {
    Found(Found),
    // whether any reply came
    Picked(bool),
    Fetched(Result<Telegram, FetchFault>),
    Released,
    // a call that the master's state lacks: nothing is sent
    Misuse,
}
