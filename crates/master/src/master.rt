// The master as types: idle, or with a meter picked.
ghost use Rattle.std.specs.Prelude.{◌≡◌, ℕ, ◌<◌, List, [], ◌∷◌, map, length, Some};
ghost use Rattle.list.specs.FixedLists.{all_places, entries_of, lender};
ghost use Rattle.telegram.specs.Addresses.{address_bytes};
ghost use Rattle.line.specs.Meters.{Meter};
ghost use Rattle.line.specs.Buses.{fitting};
ghost use Rattle.search.specs.Entries.{entry_of};
ghost use Rattle.master.specs.Faults.{is_full, summary_of};
ghost use Rattle.master.specs.Laws.{Clears, Finds};
ghost use Rattle.master.specs.Lists.{Filled};
ghost use Rattle.master.specs.Picks.{Continues, Fetches, Linked, Releases, Selects, Starts};
ghost use Rattle.master.specs.Requests.{pattern_of};
ghost use Rattle.master.specs.Searches.{Searched};

use crate::fault::{FetchFault, SearchFault, Summary};
use crate::walk::walk;
use line::line::Line;
use line::sending::send;
use link::buffer::{Buffer, new_buffer};
use list::fixed_list::FixedList;
use search::entry::Entry;
use telegram::address::Address;
use telegram::pattern::Pattern;
use telegram::reply::Reply;
use telegram::request::Request;

// A master that has no meter picked.
#[derive(Drop)]
pub struct Idle<L> {
    line: L,
}

// A master that has a meter picked: whether any reply came to the pick, and the bit of the next fetch, which is kept either way.
#[derive(Drop)]
pub struct Picked<L> {
    line: L,
    answered: bool,
    bit: bool,
}

// That a call keeps the layers, and a list its lender, relates before and after, so it stands at each call and in no type.

// Sends the release.
fn send_release<L: Line>(line: &mut L)
    ensures sent { Releases (L.means line.old) (L.means line.new) }
    ensures clear { Clears (L.means line.old) (L.means line.new) }
    ensures layers { L.tries line.new ≡ L.tries line.old }
{
    let mut buffer = new_buffer();
    let _count = send(line, &Request::Release, &mut buffer);
}

impl<L: Line> Idle<L> {
    // A master of the line. Where the run of the line below all layers is less than their tries, the line has no faults.
    pub fn new(line: L) -> Idle<L>
        ensures line { result.line ≡ line }
        ensures steady { (L.base result.line).run < L.tries result.line → (L.means result.line).run ≡ 0 }
    {
        Idle { line }
    }

    // The line, for another use.
    pub fn into_line(self) -> L
        ensures { result ≡ self.line }
    {
        self.line
    }

    // Lists the meters of the line, and sends the release.
    pub fn search(&mut self, list: &mut FixedList<Entry>) -> Result<Summary, SearchFault>
        ensures searched { Searched 8 (L.means self.old.line) (length (all_places list.old)) (map entry_of (entries_of list.new)) (summary_of result).selections (is_full result) (L.means self.new.line) }
        ensures finds { Finds 8 (L.means self.old.line).bus.meters (L.means self.old.line).run (length (all_places list.old)) (map entry_of (entries_of list.new)) (summary_of result).selections (is_full result) }
        ensures clear { Clears (L.means self.old.line) (L.means self.new.line) }
        ensures entries { (summary_of result).entries ≡ length (entries_of list.new) }
        ensures filled { Filled (all_places list.old) list.new }
        ensures lender { lender list.new ≡ lender list.old }
        ensures layers { L.tries self.new.line ≡ L.tries self.old.line }
    {
        let found = walk(&mut self.line, list);
        send_release(&mut self.line);
        found
    }

    // Sends the address as a pattern, and notes whether any reply came.
    pub fn pick(mut self, address: Address) -> Picked<L>
        ensures sent { Selects (L.means self.line) (address_bytes address) result.answered result.bit (L.means result.line) }
        ensures starts { (m : Meter) → fitting (Some (pattern_of (address_bytes address))) (L.means self.line).bus.meters ≡ m ∷ [] → Starts (L.means self.line) (address_bytes address) m result.answered result.bit (L.means result.line) }
        ensures layers { L.tries result.line ≡ L.tries self.line }
    {
        let mut buffer = new_buffer();
        let pattern = Pattern {
            bytes: address.bytes(),
        };
        let count = send(&mut self.line, &Request::Selection(pattern), &mut buffer);
        Picked {
            line: self.line,
            answered: count > 0,
            bit: true,
        }
    }

    // Sends the release.
    pub fn release(&mut self)
        ensures sent { Releases (L.means self.old.line) (L.means self.new.line) }
        ensures clear { Clears (L.means self.old.line) (L.means self.new.line) }
        ensures layers { L.tries self.new.line ≡ L.tries self.old.line }
    {
        send_release(&mut self.line);
    }
}

impl<L: Line> Picked<L> {
    // Whether any reply came to the pick.
    pub fn is_answered(&self) -> bool
        ensures { result ≡ self.now.answered }
    {
        self.answered
    }

    // The line, for another use. Nothing is sent, so the meter stays selected.
    pub fn into_line(self) -> L
        ensures { result ≡ self.line }
    {
        self.line
    }

    // Fetches the next telegram of the picked meter into the buffer: the count of its bytes. A refusal leaves the
    // buffer all 00, and the bit as it is.
    pub fn fetch(&mut self, buffer: &mut Buffer) -> Result<usize, FetchFault>
        ensures fetched { Fetches (L.means self.old.line) self.old.answered self.old.bit result buffer.new (L.means self.new.line) self.new.bit }
        ensures continues { (pattern : List ℕ) (m : Meter) (k : ℕ) → Linked pattern m k self.old.answered self.old.bit (L.means self.old.line) → Continues (L.means self.old.line) pattern m k self.old.answered result buffer.new (L.means self.new.line) self.new.bit }
        ensures answered { self.new.answered ≡ self.old.answered }
        ensures layers { L.tries self.new.line ≡ L.tries self.old.line }
    {
        if !self.answered {
            *buffer = new_buffer();
            return Err(FetchFault::Unanswered);
        }
        let count = send(&mut self.line, &Request::Fetch { bit: self.bit }, buffer);
        if Reply::read(&buffer[0..count]).is_ok() {
            self.bit = !self.bit;
            return Ok(count);
        }
        *buffer = new_buffer();
        if count == 0 {
            Err(FetchFault::Silent)
        } else {
            Err(FetchFault::Garbled)
        }
    }

    // Sends the release.
    pub fn release(mut self) -> Idle<L>
        ensures sent { Releases (L.means self.line) (L.means result.line) }
        ensures clear { Clears (L.means self.line) (L.means result.line) }
        ensures layers { L.tries result.line ≡ L.tries self.line }
    {
        send_release(&mut self.line);
        Idle { line: self.line }
    }
}
