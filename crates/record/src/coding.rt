// How the data of a record are coded.
ghost use Rattle.std.specs.Prelude.{◌≡◌, IfSome};
ghost use Rattle.record.specs.Codings.{Sized, dif_coding};

use self::Coding::*;
use self::Kind::*;

#[derive(Clone, Copy)]
pub enum Coding {
    // this many bytes; without names, so that the table keeps a coding to a line
    Fixed(usize, Kind),
    // a length byte and that much text
    Text,
}

#[derive(Clone, Copy)]
pub enum Kind {
    // a kind of data, told and printed as the others
    NoData,
    Integer,
    Real,
    Decimal,
}

// By the data field, the low four bits of a DIF. Two of them are reserved.
static CODINGS: [Option<Coding>; 16] = [
    Some(Fixed(0, NoData)),
    Some(Fixed(1, Integer)),
    Some(Fixed(2, Integer)),
    Some(Fixed(3, Integer)),
    Some(Fixed(4, Integer)),
    Some(Fixed(4, Real)),
    Some(Fixed(6, Integer)),
    Some(Fixed(8, Integer)),
    None,
    Some(Fixed(1, Decimal)),
    Some(Fixed(2, Decimal)),
    Some(Fixed(3, Decimal)),
    Some(Fixed(4, Decimal)),
    Some(Text),
    Some(Fixed(6, Decimal)),
    None,
];

// The coding of the data of a record with this DIF.
pub(crate) fn coding_of(dif: u8) -> Option<Coding>
    ensures value { result ≡ dif_coding dif }
    ensures sized { IfSome result Sized }
{
    CODINGS[dif as usize % 16]
}
