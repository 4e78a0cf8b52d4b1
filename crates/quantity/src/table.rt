// The table of VIF codes.
ghost use Rattle.std.specs.Prelude.{◌≡◌, ◌<◌, ◌≤◌, drop};
ghost use Rattle.quantity.specs.Table.{has, row_with, table};

use self::Scale::*;
use crate::quantity::Quantity;
use crate::quantity::Quantity::*;
use crate::unit::Unit;
use crate::unit::Unit::*;

// How unit and power of ten follow from n, the low bits of a code.
#[derive(Clone, Copy)]
pub enum Scale {
    // a unit, with the power n minus this number
    Tens(Unit, u8),
    // seconds, minutes, hours or days, with the power 0
    Time,
    // no unit, with the power 0
    Plain,
}

// A row of codes.
#[derive(Clone, Copy)]
pub struct Row {
    pub first: u8,
    // how many codes it has
    pub count: u8,
    pub quantity: Quantity,
    pub scale: Scale,
}

// A row on one line, so that the table reads as a table.
macro_rules! row {
    ($first:literal, $count:literal, $quantity:expr, $scale:expr) => {
        Row { first: $first, count: $count, quantity: $quantity, scale: $scale }
    };
}

static TABLE: [Row; 28] = [
    row!(0x00, 8, Energy, Tens(WattHour, 3)),
    row!(0x08, 8, EnergyJoule, Tens(Joule, 0)),
    row!(0x10, 8, Volume, Tens(CubicMetre, 6)),
    row!(0x18, 8, Mass, Tens(Kilogram, 3)),
    row!(0x20, 4, OnTime, Time),
    row!(0x24, 4, OperatingTime, Time),
    row!(0x28, 8, Power, Tens(Watt, 3)),
    row!(0x30, 8, PowerJoule, Tens(JoulePerHour, 0)),
    row!(0x38, 8, VolumeFlow, Tens(CubicMetrePerHour, 6)),
    row!(0x40, 8, VolumeFlowMinute, Tens(CubicMetrePerMinute, 7)),
    row!(0x48, 8, VolumeFlowSecond, Tens(CubicMetrePerSecond, 9)),
    row!(0x50, 8, MassFlow, Tens(KilogramPerHour, 3)),
    row!(0x58, 4, FlowTemperature, Tens(Celsius, 3)),
    row!(0x5c, 4, ReturnTemperature, Tens(Celsius, 3)),
    row!(0x60, 4, TemperatureDifference, Tens(Kelvin, 3)),
    row!(0x64, 4, ExternalTemperature, Tens(Celsius, 3)),
    row!(0x68, 4, Pressure, Tens(Bar, 3)),
    row!(0x6c, 1, Date, Plain),
    row!(0x6d, 1, DateTime, Plain),
    row!(0x6e, 1, HeatCostUnits, Plain),
    row!(0x70, 4, AveragingDuration, Time),
    row!(0x74, 4, ActualityDuration, Time),
    row!(0x78, 1, FabricationNumber, Plain),
    row!(0x79, 1, Identification, Plain),
    row!(0x7a, 1, BusAddress, Plain),
    row!(0x7b, 1, Extension, Plain),
    row!(0x7d, 1, Extension, Plain),
    row!(0x7f, 1, ManufacturerSpecific, Plain),
];

// The row at which to begin looking for a code, by the code's high five bits. No row before it has the code.
// For speed: looking from the first row on makes a whole decoding slower by a seventh.
static STARTS: [u8; 32] = [
    0, 0, 1, 1, 2, 2, 3, 3, 4, 5, 6, 6, 7, 7, 8, 8, 9, 9, 10, 10, 11, 11, 12, 13, 14, 15, 16, 17,
    20, 21, 22, 26,
];

impl Row {
    // Whether the code is one of the row's. By value, since behind a reference its parts are loaded one by one.
    fn has(self, code: u8) -> bool
        ensures { result ≡ has code self }
    {
        self.first <= code && code - self.first < self.count
    }
}

// The first row that has this code.
fn find_row(rows: &[Row], code: u8) -> Option<Row>
    ensures { result ≡ row_with code rows.now }
{
    rows.iter().find(|row| row.has(code)).copied()
}

// The number of a row that no row with this code stands before.
fn start_of(code: u8) -> usize
    requires { code < 128 }
    ensures within { result ≤ 28 }
    ensures passed { row_with code (drop result table) ≡ row_with code table }
{
    STARTS[code as usize / 4] as usize
}

// The row that has this code.
pub(crate) fn row_of(code: u8) -> Option<Row>
    requires { code < 128 }
    ensures { result ≡ row_with code table }
{
    let start = start_of(code);
    find_row(&TABLE[start..], code)
}
