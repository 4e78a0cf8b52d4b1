// What meters remember from one request to the next.
ghost use Rattle.std.specs.Prelude.{◌≡◌, List, None, Some};
ghost use Rattle.line.specs.Meters.{Meter};
ghost use Rattle.line.specs.Buses.{due as due_after, fitting, hear as hearing, selected};
ghost use Rattle.bus.specs.Memories.{OnlyHas, Positive, remembering, turn_kept};
ghost use Rattle.bus.specs.Replies.{due_from};

use crate::choice::chosen;
use crate::due::DueReply;
use crate::table::Table;
use telegram::matches::Matches;
use telegram::pattern::Pattern;
use telegram::request::Request;

// The bit of the last fetch that a meter took up, and the number of the telegram that it sends, from 1.
#[derive(Clone, Copy)]
pub(crate) struct Kept {
    pub(crate) bit: bool,
    pub(crate) turn: usize,
}

#[derive(Clone, Copy)]
pub(crate) struct Memory {
    pub(crate) selection: Option<Pattern>,
    pub(crate) kept: Option<Kept>,
}

impl Memory {
    // No bit is kept yet.
    pub(crate) fn new(selection: Option<Pattern>) -> Memory
        ensures selection { result.selection ≡ selection }
        ensures kept { result.kept ≡ None }
    {
        Memory {
            selection,
            kept: None,
        }
    }

    // Changes what is kept by that and the request together, in place. `only` is the number of telegrams of the only
    // selected meter, where there is exactly one.
    fn keep(&mut self, request: &Request, only: Option<usize>)
        requires { Positive only }
        ensures { (ms : List Meter) → OnlyHas (selected (remembering ms self.old)) only → remembering ms self.new ≡ hearing (Some request.now) (remembering ms self.old) }
    {
        match (&mut self.kept, request) {
            (kept, Request::Selection(pattern)) => {
                *kept = None;
                self.selection = Some(*pattern);
            }
            (kept, Request::Release) => {
                *kept = None;
                self.selection = None;
            }
            (Some(Kept { bit, turn }), Request::Fetch { bit: next }) => {
                if let Some(count) = only {
                    if *bit != *next {
                        *bit = *next;
                        *turn = *turn % count + 1;
                    }
                }
            }
            (None, Request::Fetch { bit }) => {
                if let Some(_) = only {
                    self.kept = Some(Kept { bit: *bit, turn: 1 });
                }
            }
        }
    }

    // Hears a request, or bytes that are none.
    #[tactic(auto, unfolding(line::specs::Buses::hear, line::specs::Buses::selected))]
    pub(crate) fn hear<T: Table>(&mut self, table: &T, heard: &Option<Request>)
        ensures { remembering (T.meters table.now) self.new ≡ hearing heard.now (remembering (T.meters table.now) self.old) }
    {
        if let Some(request) = heard {
            let only = only_count(table, &self.selection);
            self.keep(request, only);
        }
    }

    // The number of the telegram that is sent, 0 if no bit is kept, as a line's meaning has it.
    fn turn(&self) -> usize
        ensures { result ≡ turn_kept self.now.kept }
    {
        self.kept.map_or(0, |kept| kept.turn)
    }

    // The reply that is due once a request was heard.
    #[tactic(auto, unfolding(line::specs::Buses::due, line::specs::Buses::selected))]
    pub(crate) fn due<T: Table>(&self, table: &T, heard: &Option<Request>) -> DueReply
        ensures { due_from (T.meters table.now) result ≡ due_after heard.now (remembering (T.meters table.now) self.now) }
    {
        match heard {
            Some(Request::Selection(_)) => DueReply::to_selection(chosen(table, &self.selection)),
            Some(Request::Fetch { bit: _ }) => {
                DueReply::to_fetch(chosen(table, &self.selection), self.turn())
            }
            Some(Request::Release) | None => DueReply::Silence,
        }
    }
}

// The number of telegrams of the only selected meter, where there is exactly one.
fn only_count<T: Table>(table: &T, selection: &Option<Pattern>) -> Option<usize>
    ensures has { OnlyHas (fitting selection.now (T.meters table.now)) result }
    ensures some { Positive result }
{
    match chosen(table, selection) {
        Matches::One(row) => Some(table.telegrams(row)),
        Matches::Nobody | Matches::Several => None,
    }
}
