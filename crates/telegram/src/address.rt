// The (secondary) address of a meter.
ghost use Rattle.std.specs.Prelude.{◌≡◌, true, length};
ghost use Rattle.telegram.specs.Digits.{decimal_number};

pub mod methods;

// An identification number of eight decimal digits, two to a byte, the lowest pair first; the manufacturer,
// the version and the medium. No digit is above 9.
#[derive(Clone, Copy)]
pub struct Address {
    number: [u8; 4],
    manufacturer: u16,
    version: u8,
    medium: u8,
    ghost sized: { length number ≡ 4 },
    ghost decimal: { decimal_number number ≡ true },
}
