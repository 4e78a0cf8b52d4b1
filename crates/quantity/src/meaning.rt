// What a VIF means.
ghost use Rattle.std.specs.Prelude.{◌≡◌, ◌-◌, ◌≤◌, true};
ghost use Rattle.quantity.specs.Table.{Moderate, first_code, has, row_meaning, n_of, time_unit, vif_meaning};
ghost use Rattle.quantity.specs.Laws.{TableStands};

use crate::quantity::Quantity;
use crate::table::{Row, Scale, row_of};
use crate::unit::Unit;

// The codes that lead to other tables. Their VIFs have bit 7 set, since the code of that table follows.
const FIRST_EXTENSION: u8 = 0x7d;

const SECOND_EXTENSION: u8 = 0x7b;

// A value is a number of units, times ten to the power.
#[derive(Clone, Copy)]
pub struct Meaning {
    pub quantity: Quantity,
    pub unit: Unit,
    pub power: i8,
}

// By the two low bits of a code, which are a number nowhere else.
fn unit_of_time(n: u8) -> Unit
    ensures { result ≡ time_unit n }
{
    match n {
        0 => Unit::Second,
        1 => Unit::Minute,
        2 => Unit::Hour,
        _ => Unit::Day,
    }
}

// The meaning of a code of the row.
fn meaning_in(row: Row, code: u8) -> Meaning
    requires { (has code row ≡ true) × ((n_of code row ≡ code - first_code row) × ((row.count ≤ 8) × (Moderate row))) }
    ensures { result ≡ row_meaning code row }
{
    let n = code - row.first;
    let (unit, power) = match row.scale {
        Scale::Tens(unit, less) => (unit, n as i8 - less as i8),
        Scale::Time => (unit_of_time(n), 0),
        Scale::Plain => (Unit::Unitless, 0),
    };
    Meaning {
        quantity: row.quantity,
        unit,
        power,
    }
}

impl Meaning {
    // The meaning of a VIF, if it has one.
    pub fn of_vif(vif: u8) -> Option<Meaning>
        ensures value { result ≡ vif_meaning vif }
        ensures table { TableStands }
    {
        if vif == FIRST_EXTENSION || vif == SECOND_EXTENSION {
            return None;
        }
        let code = vif % 128;
        let row = row_of(code)?;
        Some(meaning_in(row, code))
    }
}
