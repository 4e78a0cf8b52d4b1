// One call each, as a step between modes of a master.
ghost use Rattle.std.specs.Prelude.{◌≡◌, ℕ, ◌-◌, ◌≤◌, List, map, length, take, drop};
ghost use Rattle.search.specs.declared.entry.Entry.{Entry as Listed};
ghost use Rattle.search.specs.Entries.{entry_of};
ghost use Rattle.master.specs.Faults.{is_full, summary_of};
ghost use Rattle.master.specs.Laws.{Clears, Finds};
ghost use Rattle.master.specs.Searches.{Searched};
ghost use Rattle.round.specs.Modes.{SameHouse, line_of};
ghost use Rattle.round.specs.Places.{Fills, listed, room};
ghost use Rattle.round.specs.Promise.{Goes};

use crate::any_master::Master;
use crate::call::{Call, Found, Outcome, Telegram};
use crate::places::Places;
use line::line::Line;
use link::buffer::new_buffer;
use list::fixed_list::FixedList;
use master::fault::{SearchFault, Summary};
use master::master::{Idle, Picked};
use search::entry::Entry;
use telegram::address::Address;

// That a call keeps the house and the layers relates the master before and after, so it stands at each and in no type.

pub(crate) fn pick<L: Line>(idle: Idle<L>, address: Address) -> (Master<L>, Outcome)
    ensures goes { (room : ℕ) (es : List Listed) → Goes L.means room (Master.Idle idle) (Call.Pick address) result.1 result.0 es es }
    ensures house { SameHouse L.means (Master.Idle idle) result.0 }
    ensures layers { L.tries (line_of result.0) ≡ L.tries idle.line }
{
    let picked = idle.pick(address);
    let answered = picked.is_answered();
    (Master::Picked(picked), Outcome::Picked(answered))
}

pub(crate) fn fetch<L: Line>(mut picked: Picked<L>) -> (Master<L>, Outcome)
    ensures goes { (room : ℕ) (es : List Listed) → Goes L.means room (Master.Picked picked) Call.Fetch result.1 result.0 es es }
    ensures house { SameHouse L.means (Master.Picked picked) result.0 }
    ensures layers { L.tries (line_of result.0) ≡ L.tries picked.line }
{
    let mut buffer = new_buffer();
    match picked.fetch(&mut buffer) {
        Ok(count) => (
            Master::Picked(picked),
            Outcome::Fetched(Ok(Telegram { buffer, count })),
        ),
        Err(fault) => (Master::Picked(picked), Outcome::Fetched(Err(fault))),
    }
}

pub(crate) fn release_idle<L: Line>(mut idle: Idle<L>) -> (Master<L>, Outcome)
    ensures goes { (room : ℕ) (es : List Listed) → Goes L.means room (Master.Idle idle) Call.Release result.1 result.0 es es }
    ensures house { SameHouse L.means (Master.Idle idle) result.0 }
    ensures layers { L.tries (line_of result.0) ≡ L.tries idle.line }
{
    idle.release();
    (Master::Idle(idle), Outcome::Released)
}

pub(crate) fn release_picked<L: Line>(picked: Picked<L>) -> (Master<L>, Outcome)
    ensures goes { (room : ℕ) (es : List Listed) → Goes L.means room (Master.Picked picked) Call.Release result.1 result.0 es es }
    ensures house { SameHouse L.means (Master.Picked picked) result.0 }
    ensures layers { L.tries (line_of result.0) ≡ L.tries picked.line }
{
    (Master::Idle(picked.release()), Outcome::Released)
}

// A search with all these places.
fn search_into<L: Line>(idle: &mut Idle<L>, places: &mut [Entry]) -> Result<Summary, SearchFault>
    ensures searched { Searched 8 (L.means idle.old.line) (length places.old) (map entry_of (take (summary_of result).entries places.new)) (summary_of result).selections (is_full result) (L.means idle.new.line) }
    ensures finds { Finds 8 (L.means idle.old.line).bus.meters (L.means idle.old.line).run (length places.old) (map entry_of (take (summary_of result).entries places.new)) (summary_of result).selections (is_full result) }
    ensures clear { Clears (L.means idle.old.line) (L.means idle.new.line) }
    ensures within { (summary_of result).entries ≤ length places.old }
    ensures untouched { drop (summary_of result).entries places.new ≡ drop (summary_of result).entries places.old }
    ensures layers { L.tries idle.new.line ≡ L.tries idle.old.line }
{
    let mut list = FixedList::new(places);
    idle.search(&mut list)
}

// A search with the places after those used.
pub(crate) fn search<L: Line>(mut idle: Idle<L>, places: &mut Places) -> (Master<L>, Outcome)
    ensures goes { Goes L.means (room places.old) (Master.Idle idle) Call.Search result.1 result.0 (listed places.old) (listed places.new) }
    ensures fills { Fills places.old places.new }
    ensures house { SameHouse L.means (Master.Idle idle) result.0 }
    ensures layers { L.tries (line_of result.0) ≡ L.tries idle.line }
{
    let from = places.used;
    let result = search_into(&mut idle, &mut places.all[from..]);
    let found = Found { from, result };
    places.used = from + found.summary().entries;
    (Master::Idle(idle), Outcome::Found(found))
}
