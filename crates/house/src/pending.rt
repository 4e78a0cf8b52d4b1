// A line that is to be added to a house.
ghost use Rattle.std.specs.Prelude.{vec_len};
ghost use Rattle.house.specs.Memory.{IsRoomFor, TakesMore};

use crate::house::House;
use crate::room::Room;

pub mod methods;

// The line, the house, and memory for all that the line can add.
#[derive(Drop)]
pub struct Pending {
    house: House,
    line: Vec<u8>,
    room: Room,
    ghost read: { IsRoomFor room (vec_len line) },
    ghost added: { TakesMore house (vec_len line) },
}
