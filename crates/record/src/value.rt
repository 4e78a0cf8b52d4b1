// The data of a record, by their coding.
ghost use Rattle.std.specs.Prelude.{◌≡◌, ◌+◌, ◌^◌, ◌<◌, ◌≤◌, length, IfOk};
ghost use Rattle.link.specs.Checks.{first_fault};
ghost use Rattle.record.specs.Codings.{Sized, SizedKind};
ghost use Rattle.record.specs.Faults.{record_fault};
ghost use Rattle.record.specs.Values.{number_checks, number_of, text_checks, value_checks, value_end, value_of};

use crate::coding::{Coding, Kind};
use crate::fault::RecordFault;
use crate::number::{decimal, integer, unsigned};
use crate::parsed::{Parsed, byte_at};
use crate::reading::{Span, Value};

const LONGEST_TEXT: usize = 0xbf;

// That a value and its end are those of the coding relates a result to arguments, so it stands in each and in no type.

// The value of the bytes at `place`.
fn number(bytes: &[u8], kind: Kind, place: usize) -> Result<Value, RecordFault>
    requires { (SizedKind (length bytes.now) kind) × (place + length bytes.now < 2 ^ 64) }
    ensures fault { record_fault result ≡ first_fault (number_checks bytes.now place kind) }
    ensures value { IfOk result (λ v. v ≡ number_of bytes.now kind) }
{
    match kind {
        Kind::NoData => Ok(Value::NoData),
        Kind::Integer => Ok(Value::Integer(integer(bytes))),
        Kind::Real => Ok(Value::Real(unsigned(bytes) as u32)),
        Kind::Decimal => Ok(Value::Integer(decimal(bytes, place)?)),
    }
}

// The text at `at`: a length byte and that many bytes.
fn text(bytes: &[u8], at: usize) -> Result<Parsed<Value>, RecordFault>
    ensures fault { record_fault result ≡ first_fault (text_checks bytes.now at) }
    ensures value { IfOk result (λ v. v.value ≡ value_of bytes.now at Coding.Text) }
    ensures end { IfOk result (λ v. v.end ≡ value_end bytes.now at Coding.Text) }
{
    let len = usize::from(byte_at(bytes, at)?);
    if len > LONGEST_TEXT {
        return Err(RecordFault::TextLength { place: at });
    }
    let place = at + 1;
    if bytes.len() - place < len {
        return Err(RecordFault::Ended { place: bytes.len() });
    }
    Ok(Parsed {
        value: Value::Text(Span { place, len }),
        end: place + len,
    })
}

// The value of the `size` bytes at `at`.
fn fixed(bytes: &[u8], at: usize, size: usize, kind: Kind) -> Result<Parsed<Value>, RecordFault>
    requires { (at ≤ length bytes.now) × (SizedKind size kind) }
    ensures fault { record_fault result ≡ first_fault (value_checks bytes.now at (Coding.Fixed size kind)) }
    ensures value { IfOk result (λ v. v.value ≡ value_of bytes.now at (Coding.Fixed size kind)) }
    ensures end { IfOk result (λ v. v.end ≡ value_end bytes.now at (Coding.Fixed size kind)) }
{
    // not `get(at..end).ok_or(..)?`, with which a whole decoding is slower by a twelfth
    if bytes.len() - at < size {
        return Err(RecordFault::Ended { place: bytes.len() });
    }
    let end = at + size;
    let value = number(&bytes[at..end], kind, at)?;
    Ok(Parsed { value, end })
}

// The value of the data at `at`.
pub(crate) fn value_at(
    bytes: &[u8],
    at: usize,
    coding: Coding,
) -> Result<Parsed<Value>, RecordFault>
    requires { (at ≤ length bytes.now) × (Sized coding) }
    ensures fault { record_fault result ≡ first_fault (value_checks bytes.now at coding) }
    ensures value { IfOk result (λ v. v.value ≡ value_of bytes.now at coding) }
    ensures end { IfOk result (λ v. v.end ≡ value_end bytes.now at coding) }
{
    match coding {
        Coding::Fixed(size, kind) => fixed(bytes, at, size, kind),
        Coding::Text => text(bytes, at),
    }
}
