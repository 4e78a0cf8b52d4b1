// Chains of extension bytes: bit 7 of a byte says that one follows, and at most ten may.
ghost use Rattle.std.specs.Prelude.{◌≡◌, ◌+◌, ◌%◌, ◌^◌, ◌<◌, ◌≤◌, length, IfOk};
ghost use Rattle.link.specs.Checks.{first_fault};
ghost use Rattle.record.specs.Chains.{chain_checks, chain_end, extensions, storage_of, tariff_of, subunit_of};
ghost use Rattle.record.specs.Faults.{record_fault};
ghost use Rattle.record.specs.Numbers.{total};

use crate::fault::RecordFault;

const MOST: usize = 10;

// How many extension bytes follow the byte at `first`, counted up to eleven. Counting all and then cutting short
// compiles to less code than a count that stops at eleven, and is inlined; with `get(first..)`, or a test of `first`
// in front, a whole decoding is slower by a sixth.
fn extensions(bytes: &[u8], first: usize) -> usize
    requires { first ≤ length bytes.now }
    ensures { result ≡ extensions bytes.now first }
{
    let asked = bytes[first..]
        .iter()
        .take_while(|byte| **byte >= 128)
        .count();
    asked.min(MOST + 1)
}

// The place after the chain that begins at `first`.
pub(crate) fn after_chain(bytes: &[u8], first: usize) -> Result<usize, RecordFault>
    requires { first ≤ length bytes.now }
    ensures fault { record_fault result ≡ first_fault (chain_checks bytes.now first) }
    ensures place { IfOk result (λ e. e ≡ chain_end bytes.now first) }
    ensures within { IfOk result (λ e. (first < e) × (e ≤ first + 11) × (e ≤ length bytes.now)) }
{
    let extensions = extensions(bytes, first);
    let last = first + extensions;
    if last >= bytes.len() {
        return Err(RecordFault::Ended { place: bytes.len() });
    }
    if extensions > MOST {
        return Err(RecordFault::Chain { place: last });
    }
    Ok(last + 1)
}

// The storage number, tariff and sub-unit of a record.
#[derive(Clone, Copy)]
pub(crate) struct Register {
    pub(crate) storage: u64,
    pub(crate) tariff: u32,
    pub(crate) subunit: u16,
}

// What the DIFEs show: numbers whose digits stand in some bits of each, the lowest digit in the first.
// One pass for all three, since most time goes where a loop ends.
fn shown_by(difes: &[u8]) -> Register
    requires { length difes.now ≤ 10 }
    ensures storage { result.storage ≡ total (λ i. 16 ^ i) (λ b. b % 16) 0 difes.now }
    ensures tariff { result.tariff ≡ tariff_of difes.now }
    ensures subunit { result.subunit ≡ subunit_of difes.now }
    ensures bound { result.storage < 16 ^ 10 }
{
    let none = Register {
        storage: 0,
        tariff: 0,
        subunit: 0,
    };
    difes.iter().rev().fold(
        none,
        |above, dife| Register {
            storage: above
                .storage
                .wrapping_mul(16)
                .wrapping_add(u64::from(*dife % 16)),
            tariff: above
                .tariff
                .wrapping_mul(4)
                .wrapping_add(u32::from(*dife / 16 % 4)),
            subunit: above
                .subunit
                .wrapping_mul(2)
                .wrapping_add(u16::from(*dife / 64 % 2)),
        },
    )
}

// The lowest bit of the storage number is bit 6 of the DIF.
pub(crate) fn register_of(dif: u8, difes: &[u8]) -> Register
    requires { length difes.now ≤ 10 }
    ensures storage { result.storage ≡ storage_of dif difes.now }
    ensures tariff { result.tariff ≡ tariff_of difes.now }
    ensures subunit { result.subunit ≡ subunit_of difes.now }
{
    let shown = shown_by(difes);
    Register {
        storage: u64::from(dif / 64 % 2) + 2 * shown.storage,
        ..shown
    }
}
