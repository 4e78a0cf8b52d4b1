// Decimal digits, two to a byte.
ghost use Rattle.std.specs.Prelude.{◌≡◌};
ghost use Rattle.telegram.specs.Digits.{decimal};

// Whether both digits of a byte are at most 9.
pub fn is_decimal(byte: u8) -> bool
    ensures { result ≡ decimal byte }
{
    // without a jump, since decimals are read digit by digit
    (byte % 16 <= 9) & (byte / 16 <= 9)
}
