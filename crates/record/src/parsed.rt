// What is read at a place.
ghost use Rattle.std.specs.Prelude.{◌≡◌, ◌<◌, ◌≤◌, length, IfOk, IfErr, slice_index};

use crate::fault::RecordFault;

// What was read, and the place after it.
#[derive(Clone, Copy)]
pub(crate) struct Parsed<T> {
    pub(crate) value: T,
    pub(crate) end: usize,
}

// The byte at `at`.
pub(crate) fn byte_at(bytes: &[u8], at: usize) -> Result<u8, RecordFault>
    ensures ok { IfOk result (λ b. (at < length bytes.now) × (b ≡ slice_index bytes.now at)) }
    ensures err { IfErr result (λ e. (length bytes.now ≤ at) × (e ≡ RecordFault.Ended (length bytes.now))) }
{
    bytes
        .get(at)
        .copied()
        .ok_or(RecordFault::Ended { place: bytes.len() })
}
