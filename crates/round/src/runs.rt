// Any list of calls on a master.
ghost use Rattle.std.specs.Prelude.{◌≡◌, ◌<◌, ◌≤◌, min, length, take, drop};
ghost use Rattle.round.specs.Laws.{SearchesList};
ghost use Rattle.round.specs.Modes.{Holds, Mode, SameHouse, house_of, line_of};
ghost use Rattle.round.specs.Places.{Fills, listed, room};
ghost use Rattle.round.specs.Promise.{Goes, GoesOn, Promise, Runs};

use crate::any_master::{Master, Progress};
use crate::call::{Call, Outcome};
use crate::places::Places;
use crate::steps::{fetch, pick, release_idle, release_picked, search};
use line::line::Line;
use master::master::Idle;
use search::entry::Entry;

// The calls and the places for what they give are the caller's, each a slice of its own. What a call keeps relates the
// master before and after, so it stands at each and in no type.
impl<L: Line> Master<L> {
    // An unused master.
    fn new(line: L) -> Master<L>
        ensures line { line_of result ≡ line }
        ensures idle { Holds L.means result Mode.idle }
    {
        Master::Idle(Idle::new(line))
    }

    // The line, for another use.
    pub fn into_line(self) -> L
        ensures { result ≡ line_of self }
    {
        match self {
            Master::Idle(idle) => idle.into_line(),
            Master::Picked(picked) => picked.into_line(),
        }
    }

    // One call, in the state that the master is in. A call that this state lacks sends nothing and changes nothing.
    fn step(self, call: Call, places: &mut Places) -> (Master<L>, Outcome)
        ensures goes { Goes L.means (room places.old) self call result.1 result.0 (listed places.old) (listed places.new) }
        ensures fills { Fills places.old places.new }
        ensures house { SameHouse L.means self result.0 }
        ensures layers { L.tries (line_of result.0) ≡ L.tries (line_of self) }
    {
        // by the state and the call: each pair has its own types
        match (self, call) {
            (Master::Idle(idle), Call::Search) => search(idle, places),
            (Master::Idle(idle), Call::Pick(address)) => pick(idle, address),
            (Master::Idle(idle), Call::Release) => release_idle(idle),
            (Master::Picked(picked), Call::Fetch) => fetch(picked),
            (Master::Picked(picked), Call::Release) => release_picked(picked),
            (Master::Idle(idle), Call::Fetch) => (Master::Idle(idle), Outcome::Misuse),
            (Master::Picked(picked), Call::Search) => (Master::Picked(picked), Outcome::Misuse),
            (Master::Picked(picked), Call::Pick(_)) => (Master::Picked(picked), Outcome::Misuse),
        }
    }

    // The calls one by one, as many as there are places for outcomes, and how many these are.
    fn obey(
        self,
        calls: &[Call],
        outcomes: &mut [Outcome],
        places: &mut Places,
    ) -> (Master<L>, usize)
        requires { places.old.used ≡ 0 }
        ensures count { result.1 ≡ min (length calls.now) (length outcomes.old) }
        ensures runs { Runs L.means (room places.old) self (take result.1 calls.now) (take result.1 outcomes.new) result.0 (listed places.new) }
        ensures other_outcomes { drop result.1 outcomes.new ≡ drop result.1 outcomes.old }
        ensures fills { Fills places.old places.new }
        ensures house { SameHouse L.means self result.0 }
        ensures layers { L.tries (line_of result.0) ≡ L.tries (line_of self) }
    {
        let count = calls.len().min(outcomes.len());
        let mut master = self;
        // tried as a `zip` with `iter_mut`: the outcomes written through it are no values that the loop's invariant can name
        for i in 0..count {
            let (after, outcome) = master.step(calls[i], places);
            master = after;
            outcomes[i] = outcome;
        }
        (master, count)
    }

    // The calls one by one, as many as there are places for outcomes. The entries of their searches go into the places for
    // entries one after the other, each search having those that are left. The other places are untouched.
    pub fn run(
        self,
        calls: &[Call],
        outcomes: &mut [Outcome],
        entries: &mut [Entry],
    ) -> (Master<L>, Progress)
        ensures calls { result.1.calls ≡ min (length calls.now) (length outcomes.old) }
        ensures runs { Runs L.means (length entries.old) self (take result.1.calls calls.now) (take result.1.calls outcomes.new) result.0 (take result.1.entries entries.new) }
        ensures goes_on { GoesOn L.means self (take result.1.calls calls.now) (take result.1.calls outcomes.new) result.0 }
        ensures lists { (mode : Mode) → Holds L.means self mode → SearchesList (house_of (L.means (line_of self))) (length entries.old) (take result.1.calls calls.now) (take result.1.calls outcomes.new) (take result.1.entries entries.new) }
        ensures within { result.1.entries ≤ length entries.old }
        ensures other_outcomes { drop result.1.calls outcomes.new ≡ drop result.1.calls outcomes.old }
        ensures other_entries { drop result.1.entries entries.new ≡ drop result.1.entries entries.old }
        ensures house { SameHouse L.means self result.0 }
        ensures layers { L.tries (line_of result.0) ≡ L.tries (line_of self) }
        ensures faultless { (L.base (line_of self)).run < L.tries (line_of self) → (L.means (line_of self)).run ≡ 0 }
    {
        let mut places = Places {
            all: entries,
            used: 0,
        };
        let (master, count) = self.obey(calls, outcomes, &mut places);
        let progress = Progress {
            calls: count,
            entries: places.used,
        };
        (master, progress)
    }

    // The calls one by one on a line that no master has used yet. A later run goes on from there.
    pub fn start(
        line: L,
        calls: &[Call],
        outcomes: &mut [Outcome],
        entries: &mut [Entry],
    ) -> (Master<L>, Progress)
        ensures calls { result.1.calls ≡ min (length calls.now) (length outcomes.old) }
        ensures promise { Promise L.means L.base L.tries line (length entries.old) (take result.1.calls calls.now) (take result.1.calls outcomes.new) result.0 (take result.1.entries entries.new) }
        ensures within { result.1.entries ≤ length entries.old }
        ensures other_outcomes { drop result.1.calls outcomes.new ≡ drop result.1.calls outcomes.old }
        ensures other_entries { drop result.1.entries entries.new ≡ drop result.1.entries entries.old }
    {
        Master::new(line).run(calls, outcomes, entries)
    }
}
