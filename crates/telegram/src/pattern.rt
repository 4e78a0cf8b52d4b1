// Patterns that select meters by their address.
ghost use Rattle.std.specs.Prelude.{◌≡◌};
ghost use Rattle.telegram.specs.Addresses.{address_bytes};
ghost use Rattle.telegram.specs.Patterns.{digits_fit, byte_fits, fits};

use crate::address::Address;

// Eight bytes in the layout of an address, with the digit F or the byte FF where anything fits.
#[derive(Clone, Copy)]
pub struct Pattern {
    pub bytes: [u8; 8],
}

// Two digits of the number; a digit F fits every digit.
fn fits_digits(pattern: u8, byte: u8) -> bool
    ensures { result ≡ digits_fit pattern byte }
{
    (pattern / 16 == 15 || pattern / 16 == byte / 16)
        && (pattern % 16 == 15 || pattern % 16 == byte % 16)
}

// A byte of manufacturer, version or medium; FF fits every byte.
fn fits_byte(pattern: u8, byte: u8) -> bool
    ensures { result ≡ byte_fits pattern byte }
{
    pattern == 0xff || pattern == byte
}

impl Pattern {
    // Whether a meter with this address is selected.
    pub fn fits(&self, address: &Address) -> bool
        ensures { result ≡ fits self.now.bytes (address_bytes address.now) }
    {
        // byte by byte: the halves fit by different rules, and two chains over their pairs are no shorter
        let p = self.bytes;
        let a = address.bytes();
        let number = fits_digits(p[0], a[0])
            & fits_digits(p[1], a[1])
            & fits_digits(p[2], a[2])
            & fits_digits(p[3], a[3]);
        let rest = fits_byte(p[4], a[4])
            & fits_byte(p[5], a[5])
            & fits_byte(p[6], a[6])
            & fits_byte(p[7], a[7]);
        number & rest
    }
}
