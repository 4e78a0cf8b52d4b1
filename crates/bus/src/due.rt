// The reply that is due after a request.
ghost use Rattle.std.specs.Prelude.{◌≡◌, List, length};
ghost use Rattle.link.specs.Buffers.{filled};
ghost use Rattle.line.specs.Meters.{Meter};
ghost use Rattle.line.specs.Buses.{due_fetches, due_selects};
ghost use Rattle.bus.specs.Choices.{Tells};
ghost use Rattle.bus.specs.Replies.{arriving, damaged, due_from};

use crate::table::Table;
use link::buffer::{Buffer, fill};
use telegram::matches::Matches;

#[derive(Clone, Copy)]
pub(crate) enum DueReply {
    // what a bus does too, and no `None`
    Silence,
    Acknowledgement,
    // a telegram of the meter in a row, by its place among that meter's telegrams
    Telegram { row: usize, place: usize },
    // several meters answer at once
    Collision,
}

impl DueReply {
    // All meters chosen acknowledge a selection.
    pub(crate) fn to_selection(answering: Matches<usize>) -> DueReply
        ensures { (ms chosen : List Meter) → Tells ms chosen answering → due_from ms result ≡ due_selects chosen }
    {
        match answering {
            Matches::Nobody => DueReply::Silence,
            Matches::One(_) | Matches::Several => DueReply::Acknowledgement,
        }
    }

    // All meters chosen answer a fetch, an only one with the telegram whose turn it is.
    pub(crate) fn to_fetch(answering: Matches<usize>, turn: usize) -> DueReply
        ensures { (ms chosen : List Meter) → Tells ms chosen answering → due_from ms result ≡ due_fetches chosen turn }
    {
        match answering {
            Matches::Nobody => DueReply::Silence,
            Matches::One(row) => DueReply::Telegram {
                row,
                place: turn.saturating_sub(1),
            },
            Matches::Several => DueReply::Collision,
        }
    }
}

const ACKNOWLEDGEMENT: [u8; 1] = [0xe5];

// What a collision or damage leaves of a reply.
const GARBLE: [u8; 1] = [0x00];

// Fills the buffer with the due reply, or, where several meters answer at once, with the garble, and then 00.
// Answers the count of the reply's bytes.
pub(crate) fn deliver<T: Table>(table: &T, due: DueReply, reply: &mut Buffer) -> usize
    ensures buffer { reply.new ≡ filled (arriving (due_from (T.meters table.now) due)) }
    ensures count { result ≡ length (arriving (due_from (T.meters table.now) due)) }
{
    match due {
        DueReply::Silence => fill(reply, &[]),
        DueReply::Acknowledgement => fill(reply, &ACKNOWLEDGEMENT),
        DueReply::Telegram { row, place } => table.write(row, place, reply),
        DueReply::Collision => fill(reply, &GARBLE),
    }
}

// Fills the buffer with what damage leaves of the due reply, and then 00. Answers the count of its bytes.
pub(crate) fn damage(due: DueReply, reply: &mut Buffer) -> usize
    ensures buffer { (ms : List Meter) → reply.new ≡ filled (damaged (due_from ms due)) }
    ensures count { (ms : List Meter) → result ≡ length (damaged (due_from ms due)) }
{
    match due {
        DueReply::Silence => fill(reply, &[]),
        _ => fill(reply, &GARBLE),
    }
}
