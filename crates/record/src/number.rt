// The numbers among the data, lowest byte first.
ghost use Rattle.std.specs.Prelude.{◌≡◌, ◌+◌, ◌*◌, ◌^◌, ◌<◌, ◌≤◌, length, IfOk, MatchOption, slice_index};
ghost use Rattle.link.specs.Checks.{first_fault};
ghost use Rattle.record.specs.Faults.{record_fault};
ghost use Rattle.record.specs.Numbers.{unsigned_of, integer_of, magnitude, first_bad, decimal_of, digit_checks, digits_value};

use crate::fault::RecordFault;
use crate::positional::positional;
use telegram::digits::is_decimal;

pub(crate) fn unsigned(bytes: &[u8]) -> u64
    requires { length bytes.now ≤ 8 }
    ensures value { result ≡ unsigned_of bytes.now }
    ensures bound { result < 256 ^ length bytes.now }
{
    positional(bytes, 256, u64::from)
}

// The bytes as a number in two's complement.
pub(crate) fn integer(bytes: &[u8]) -> i64
    requires { (1 ≤ length bytes.now) × (length bytes.now ≤ 8) }
    ensures { result ≡ integer_of bytes.now }
{
    let n = unsigned(bytes);
    let half = 1u64 << (8 * bytes.len() - 1);
    // a negative number is as far below -1 as n is below its greatest value; both ways are so short that no jump is needed
    let negative = n >= half;
    let distance = if negative { (half - 1) - (n - half) } else { n } as i64;
    if negative { -1 - distance } else { distance }
}

// The byte at `i`, with the digit 0 for a sign.
fn digits_at(bytes: &[u8], i: usize) -> u8
    requires { i < length bytes.now }
    ensures { result ≡ slice_index (magnitude bytes.now) i }
{
    let b = bytes[i];
    if i == bytes.len() - 1 && b >= 0xf0 {
        b - 0xf0
    } else {
        b
    }
}

// The first byte with a digit above 9 that is no sign. By place, since only the topmost byte has a sign.
fn first_bad_digit(bytes: &[u8]) -> Option<usize>
    ensures { MatchOption result (length bytes.now ≤ first_bad bytes.now) (λ bad. (bad < length bytes.now) × (bad ≡ first_bad bytes.now)) }
{
    (0..bytes.len()).find(|i| !is_decimal(digits_at(bytes, *i)))
}

// The number that the digits are, without the sign. Once the digits are tested, only a sign makes a byte so large.
fn digits(bytes: &[u8]) -> u64
    requires few { length bytes.now ≤ 8 }
    requires tested { length bytes.now ≤ first_bad bytes.now }
    ensures value { result ≡ digits_value (magnitude bytes.now) }
    ensures bound { result + 2 ≤ 2 * 100 ^ length bytes.now }
{
    positional(bytes, 100, |byte| {
        let b = byte % 0xf0;
        u64::from(b / 16 * 10 + b % 16)
    })
}

// The bytes from `place` on as a decimal number, two digits to a byte. A topmost digit F means minus.
pub(crate) fn decimal(bytes: &[u8], place: usize) -> Result<i64, RecordFault>
    requires { (1 ≤ length bytes.now) × ((length bytes.now ≤ 8) × (place + length bytes.now < 2 ^ 64)) }
    ensures fault { record_fault result ≡ first_fault (digit_checks place (magnitude bytes.now)) }
    ensures value { IfOk result (λ v. v ≡ decimal_of bytes.now) }
{
    if let Some(bad) = first_bad_digit(bytes) {
        return Err(RecordFault::Digit { place: place + bad });
    }
    let n = digits(bytes) as i64;
    if bytes[bytes.len() - 1] >= 0xf0 {
        return Ok(-n);
    }
    Ok(n)
}
