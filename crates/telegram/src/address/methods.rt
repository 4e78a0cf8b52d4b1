// Making addresses from bytes and turning them into bytes again.
ghost use Rattle.std.specs.Prelude.{◌≡◌, ◌≤◌, not, length, take, IfOk, Decides};
ghost use Rattle.std.specs.List.{position};
ghost use Rattle.link.specs.Checks.{first_fault};
ghost use Rattle.telegram.specs.Addresses.{AddressIn, address_bytes};
ghost use Rattle.telegram.specs.Digits.{decimal, digit_checks};
ghost use Rattle.telegram.specs.Faults.{reply_fault};
ghost use Rattle.std.specs.Cmp.Rules.{comparing};
ghost use Rattle.std.specs.Str.{bytes_eq};
ghost use Rattle.std.proofs.Common.{rules};

use super::Address;
use crate::digits::is_decimal;
use crate::fault::ReplyFault;

// The place of the first byte with a digit above 9.
fn first_bad(number: &[u8]) -> Option<usize>
    ensures { result ≡ position (λ b. not (decimal b)) number.now }
{
    number.iter().position(|byte| !is_decimal(*byte))
}

// Refuses a number with a digit above 9, where its first byte stands at `start`.
fn check_digits(number: [u8; 4], start: usize) -> Result<(), ReplyFault>
    requires { start ≤ 7 }
    ensures { reply_fault result ≡ first_fault (digit_checks start number) }
{
    match first_bad(&number) {
        None => Ok(()),
        Some(at) => Err(ReplyFault::Digit { place: start + at }),
    }
}

impl Address {
    // The address in the first eight bytes, of which the first stands at `start`. By index: a pattern would have a
    // branch for too few bytes, which never come.
    pub(crate) fn at(bytes: &[u8], start: usize) -> Result<Address, ReplyFault>
        requires in_bounds { 8 ≤ length bytes.now }
        requires start_bound { start ≤ 7 }
        ensures fault { reply_fault result ≡ first_fault (digit_checks start bytes.now) }
        ensures bytes { IfOk result (λ a. address_bytes a ≡ take 8 bytes.now) }
    {
        let number = [bytes[0], bytes[1], bytes[2], bytes[3]];
        check_digits(number, start)?;
        Ok(Address {
            number,
            manufacturer: u16::from_le_bytes([bytes[4], bytes[5]]),
            version: bytes[6],
            medium: bytes[7],
        })
    }

    // The address as it travels. A method as `to_le_bytes` is: with `From` each use would have to name the array's type.
    pub fn bytes(&self) -> [u8; 8]
        ensures { result ≡ address_bytes self.now }
    {
        let [a, b, c, d] = self.number;
        let [low, high] = self.manufacturer.to_le_bytes();
        [a, b, c, d, low, high, self.version, self.medium]
    }
}

// The address that eight bytes hold, or the place of the first byte with a digit above 9.
impl TryFrom<[u8; 8]> for Address {
    type Error = ReplyFault;

    ghost try_from_gives = { AddressIn };

    fn try_from(bytes: [u8; 8]) -> Result<Address, ReplyFault> {
        Address::at(&bytes, 0)
    }
}

// By hand: a derive would say that the fields are equal, and not, as callers need it, that the bytes are which travel.
impl PartialEq for Address {
    ghost eq = { λ a b. bytes_eq (address_bytes a) (address_bytes b) };

    ghost laws = { Prim.search (comparing, rules) };

    fn eq(&self, other: &Address) -> bool
        ensures value { result ≡ bytes_eq (address_bytes self.now) (address_bytes other.now) }
        ensures same { Decides result (address_bytes self.now ≡ address_bytes other.now) }
    {
        self.bytes() == other.bytes()
    }
}

impl Eq for Address {
    ghost laws = { Prim.search (comparing, rules) };
}
