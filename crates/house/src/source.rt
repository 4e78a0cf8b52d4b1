// What lines are read from.
ghost use Rattle.std.specs.Prelude.{length};
ghost use Rattle.house.specs.Memory.{IsRoomFor};

use crate::room::Room;

// A text, and memory for all values that it can have.
#[derive(Drop)]
pub(crate) struct Source<'a> {
    pub(crate) text: &'a [u8],
    pub(crate) room: Room,
    ghost fits: { IsRoomFor room (length text.now) },
}
