// A recording as a table of meters.
ghost use Rattle.line.specs.Soundness.{stocked_out};
ghost use Rattle.capture.specs.Rows.{meters_of};

use crate::reader::telegram_at;
use crate::recording::Recording;
use bus::table::Table;
use link::buffer::{Buffer, fill};
use telegram::address::Address;

// Not shared with a bench's table: short methods over rows of another kind.
impl Table for Recording {
    ghost meters = { λ t. meters_of t.bytes.items t.rows.items };

    ghost stocked = { λ t. stocked_out (meters_of t.bytes.items t.rows.items) t.stocked };

    #[tactic(auto, unfolding(crate::specs::Rows::meters_of))]
    fn count(&self) -> usize {
        self.rows.len()
    }

    #[tactic(auto, unfolding(crate::specs::Rows::meter_of, crate::specs::Rows::meters_of))]
    fn address(&self, row: usize) -> Option<Address> {
        self.rows.get(row).map(|row| row.address)
    }

    #[tactic(auto, unfolding(crate::specs::Rows::meter_of, crate::specs::Rows::meters_of))]
    fn telegrams(&self, row: usize) -> usize {
        self.rows.get(row).map_or(0, |row| row.starts.len())
    }

    #[tactic(auto, unfolding(crate::specs::Rows::meter_of, crate::specs::Rows::meters_of))]
    fn write(&self, row: usize, place: usize, reply: &mut Buffer) -> usize {
        if let Some(row) = self.rows.get(row)
            && let Some(start) = row.starts.get(place)
        {
            fill(reply, telegram_at(&self.bytes, *start))
        } else {
            fill(reply, &[])
        }
    }
}
