// A table of meters, one to a row.
ghost use Rattle.std.specs.Prelude.{◌≡◌, List, length};
ghost use Rattle.std.specs.Option.{option_map};
ghost use Rattle.std.specs.List.{AllByRecursion};
ghost use Rattle.link.specs.Buffers.{filled};
ghost use Rattle.telegram.specs.Addresses.{address_bytes};
ghost use Rattle.line.specs.Meters.{Meter, Stocked};
ghost use Rattle.bus.specs.Tables.{address_at, meter_at, telegram_at};

use link::buffer::Buffer;
use telegram::address::Address;

pub trait Table {
    // The meters, in the order of their rows.
    ghost meters: { Self → List Meter };

    // What holds of every table. A member and no law, so that a table may borrow.
    ghost stocked: { (x : Self) → AllByRecursion Stocked (meters x) };

    // The number of rows.
    fn count(&self) -> usize
        ensures { result ≡ length (meters self.now) };

    // The address of the meter in a row, if there is such a row.
    fn address(&self, row: usize) -> Option<Address>
        ensures { option_map address_bytes result ≡ address_at (meters self.now) row };

    // How many telegrams the meter in a row has; 0 where there is no such row.
    fn telegrams(&self, row: usize) -> usize
        ensures { result ≡ length (meter_at (meters self.now) row).telegrams };

    // Fills the buffer with a telegram of the meter in a row, by its place from 0, and then 00.
    // Answers the count of the telegram's bytes; 0 where there is no such telegram.
    fn write(&self, row: usize, place: usize, reply: &mut Buffer) -> usize
        ensures buffer { reply.new ≡ filled (telegram_at (meters self.now) row place) }
        ensures count { result ≡ length (telegram_at (meters self.now) row place) };
}
