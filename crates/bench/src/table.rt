// The rows of a bench as a table of meters.
ghost use Rattle.std.specs.Prelude.{◌≡◌, true, length};
ghost use Rattle.bench.specs.Meters.{meters_of};
ghost use Rattle.bench.specs.Rows.{each, row_fits};
ghost use Rattle.bench.specs.Stocking.{rows_stocked};

use crate::row::Row;
use bus::table::Table;
use link::buffer::{Buffer, fill};
use telegram::address::Address;

#[derive(Drop)]
pub(crate) struct RowTable {
    pub(crate) rows: Vec<Row>,
    // where the bodies lie
    pub(crate) area: Vec<u8>,
    ghost fitting: { each (row_fits (length area.items)) rows.items ≡ true },
}

// Not shared with a capture's table: short methods over rows of another kind.
impl Table for RowTable {
    ghost meters = { λ t. meters_of t.rows.items t.area.items };

    ghost stocked = { λ t. rows_stocked t.rows.items t.area.items t.fitting };

    fn count(&self) -> usize {
        self.rows.len()
    }

    fn address(&self, row: usize) -> Option<Address> {
        self.rows.get(row).map(|row| row.address)
    }

    fn telegrams(&self, row: usize) -> usize {
        self.rows.get(row).map_or(0, |row| row.bodies.len())
    }

    fn write(&self, row: usize, place: usize, reply: &mut Buffer) -> usize {
        if let Some(row) = self.rows.get(row)
            && let Some(body) = row.bodies.get(place)
        {
            row.write(body.bytes(&self.area), reply)
        } else {
            fill(reply, &[])
        }
    }
}
