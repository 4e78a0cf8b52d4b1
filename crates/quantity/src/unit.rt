// The units of the quantities.
ghost use Rattle.std.specs.Prelude.{Some};
ghost use Rattle.quantity.specs.Units.{unit_name};

use std::fmt;

#[derive(Clone, Copy)]
pub enum Unit {
    // a unit among others, and no `None`: table, text and digest tell it as they tell the rest
    Unitless,
    WattHour,
    Joule,
    CubicMetre,
    Kilogram,
    Second,
    Minute,
    Hour,
    Day,
    Watt,
    JoulePerHour,
    CubicMetrePerHour,
    CubicMetrePerMinute,
    CubicMetrePerSecond,
    KilogramPerHour,
    Celsius,
    Kelvin,
    Bar,
}

impl fmt::Display for Unit {
    ghost output = { λ unit. Some (unit_name unit) };

    fn fmt<W: fmt::Write>(&self, f: &mut fmt::Formatter<W>) -> fmt::Result {
        f.write_str(match self {
            Unit::Unitless => "-",
            Unit::WattHour => "Wh",
            Unit::Joule => "J",
            Unit::CubicMetre => "m3",
            Unit::Kilogram => "kg",
            Unit::Second => "s",
            Unit::Minute => "min",
            Unit::Hour => "h",
            Unit::Day => "d",
            Unit::Watt => "W",
            Unit::JoulePerHour => "J/h",
            Unit::CubicMetrePerHour => "m3/h",
            Unit::CubicMetrePerMinute => "m3/min",
            Unit::CubicMetrePerSecond => "m3/s",
            Unit::KilogramPerHour => "kg/h",
            Unit::Celsius => "C",
            Unit::Kelvin => "K",
            Unit::Bar => "bar",
        })
    }
}
