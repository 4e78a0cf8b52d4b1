// One meter of a capture.
ghost use Rattle.std.specs.Prelude.{◌≡◌, ◌≤◌, [], ◌∷◌, ◌++◌, MatchResult, None};
ghost use Rattle.arrayvec.specs.ArrayVec.{array_vec_len};
ghost use Rattle.capture.specs.declared.fault.Cause.TheVariants.{Size};

use crate::fault::{CaptureFault, Cause};
use arrayvec::ArrayVec;
use telegram::address::Address;

// The most telegrams of one meter.
const MOST_TELEGRAMS: usize = 16;

// The refusal of too many bytes, too many meters, or too many telegrams of one meter.
pub(crate) const TOO_MANY: CaptureFault = CaptureFault {
    telegram: None,
    cause: Cause::Size,
};

// An address, and the places where the telegrams that carry it start.
#[derive(Drop)]
pub(crate) struct Row {
    pub(crate) address: Address,
    pub(crate) starts: ArrayVec<usize, MOST_TELEGRAMS>,
    ghost some: { 1 ≤ array_vec_len starts },
    ghost few: { array_vec_len starts ≤ 16 },
}

impl Row {
    // A meter with one telegram.
    pub(crate) fn new(address: Address, start: usize) -> Row
        ensures address { result.address ≡ address }
        ensures starts { result.starts.items ≡ start ∷ [] }
    {
        let mut starts = ArrayVec::new();
        starts.push(start);
        Row { address, starts }
    }

    // Adds a telegram, unless the meter has as many as it may.
    pub(crate) fn add(&mut self, start: usize) -> Result<(), CaptureFault>
        ensures address { self.new.address ≡ self.old.address }
        ensures starts { MatchResult result (λ _. self.new.starts.items ≡ self.old.starts.items ++ start ∷ []) (λ e. (e.telegram ≡ None) × (e.cause ≡ Size) × (array_vec_len self.old.starts ≡ 16) × (self.new.starts ≡ self.old.starts)) }
    {
        self.starts.try_push(start).map_err(|_| TOO_MANY)
    }
}
