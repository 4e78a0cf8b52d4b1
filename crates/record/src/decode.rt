// One record: DIF, DIFEs, VIF, VIFEs, data. `bytes` and `at` go side by side through this crate, and not as a cursor:
// faults and readings tell places, and one place is often read from twice.
ghost use Rattle.std.specs.Prelude.{◌≡◌, ◌+◌, ◌<◌, ◌≤◌, length, IfOk, Some, slice_index};
ghost use Rattle.link.specs.Checks.{FailsFirst, first_fault};
ghost use Rattle.quantity.specs.Table.{vif_meaning};
ghost use Rattle.record.specs.Chains.{chain_end};
ghost use Rattle.record.specs.Codings.{Sized, dif_coding};
ghost use Rattle.record.specs.Faults.{record_fault};
ghost use Rattle.record.specs.Records.{Within, dib_checks, function_of, reading_by, record_checks, record_of, record_refusal, vib_checks};

use crate::chain::{after_chain, register_of};
use crate::coding::{Coding, coding_of};
use crate::fault::RecordFault;
use crate::parsed::{Parsed, byte_at};
use crate::reading::{Function, Reading, Span, Value};
use crate::value::value_at;
use quantity::meaning::Meaning;

// A reading and the place after its record. Its parts have names of their own, since other crates read them.
#[derive(Clone, Copy)]
pub struct Decoded {
    pub reading: Reading,
    pub next: usize,
}

// By two bits of the DIF. No `From<u8>`, since a byte is a DIF only here.
fn function_of(dif: u8) -> Function
    ensures { result ≡ function_of dif }
{
    match dif / 16 % 4 {
        0 => Function::Instantaneous,
        1 => Function::Maximum,
        2 => Function::Minimum,
        _ => Function::DuringError,
    }
}

// The data information block at `at`, the DIF and its DIFEs: how the data are coded. Not one function with the next, since
// the two mean and refuse different things.
fn data_block(bytes: &[u8], at: usize) -> Result<Parsed<Coding>, RecordFault>
    ensures fault { record_fault result ≡ first_fault (dib_checks bytes.now at) }
    ensures coding { IfOk result (λ b. dif_coding (slice_index bytes.now at) ≡ Some b.value) }
    ensures sized { IfOk result (λ b. Sized b.value) }
    ensures place { IfOk result (λ b. b.end ≡ chain_end bytes.now at) }
    ensures within { IfOk result (λ b. (at < b.end) × (b.end ≤ at + 11) × (b.end ≤ length bytes.now)) }
{
    let dif = byte_at(bytes, at)?;
    let value = coding_of(dif).ok_or(RecordFault::DataField { place: at })?;
    let end = after_chain(bytes, at)?;
    Ok(Parsed { value, end })
}

// The value information block at `at`, the VIF and its VIFEs: what the data mean.
fn value_block(bytes: &[u8], at: usize) -> Result<Parsed<Meaning>, RecordFault>
    ensures fault { record_fault result ≡ first_fault (vib_checks bytes.now at) }
    ensures meaning { IfOk result (λ b. vif_meaning (slice_index bytes.now at) ≡ Some b.value) }
    ensures place { IfOk result (λ b. b.end ≡ chain_end bytes.now at) }
    ensures within { IfOk result (λ b. (at < b.end) × (b.end ≤ length bytes.now)) }
{
    let vif = byte_at(bytes, at)?;
    let value = Meaning::of_vif(vif).ok_or(RecordFault::Vif { place: at })?;
    let end = after_chain(bytes, at)?;
    Ok(Parsed { value, end })
}

// The record at `at`, once its blocks and its value are read.
fn assembled(bytes: &[u8], at: usize, vif: usize, vib: Parsed<Meaning>, value: Value) -> Reading
    requires { (at < vif) × ((vif ≤ at + 11) × ((vif < vib.end) × (vib.end ≤ length bytes.now))) }
    ensures { result ≡ reading_by bytes.now at vif vib.end vib.value value }
{
    let Parsed {
        value: meaning,
        end,
    } = vib;
    let dif = bytes[at];
    let register = register_of(dif, &bytes[at + 1..vif]);
    let vifes = Span {
        place: vif + 1,
        len: end - (vif + 1),
    };
    Reading {
        place: at,
        storage: register.storage,
        tariff: register.tariff,
        subunit: register.subunit,
        function: function_of(dif),
        meaning,
        vifes,
        value,
    }
}

// The record at `at`, where `bytes` are a telegram up to the end of its body; or the first fault from the left.
pub fn decode(bytes: &[u8], at: usize) -> Result<Decoded, RecordFault>
    ensures fault { record_fault result ≡ record_refusal bytes.now at }
    ensures order { FailsFirst (record_checks bytes.now at) (record_fault result) }
    ensures value { IfOk result (λ d. record_of bytes.now at ≡ Some d) }
    ensures within { IfOk result (λ d. Within bytes.now at d.next d.reading) }
{
    let dib = data_block(bytes, at)?;
    let vib = value_block(bytes, dib.end)?;
    let valued = value_at(bytes, vib.end, dib.value)?;
    Ok(Decoded {
        reading: assembled(bytes, at, dib.end, vib, valued.value),
        next: valued.end,
    })
}
