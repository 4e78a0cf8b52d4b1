// The meters of a capture so far, in memory that was got before its bytes are read, so that reading them never wants
// memory.
ghost use Rattle.std.specs.Prelude.{◌≡◌, ℕ, ◌<◌, ◌≤◌, List, [], ◌∷◌, ◌++◌, length, None, IfOk, MatchResult, vec_len, vec_capacity};
ghost use Rattle.telegram.specs.Addresses.{address_bytes};
ghost use Rattle.capture.specs.declared.fault.Cause.TheVariants.{Size};
ghost use Rattle.capture.specs.Cutting.{telegram_from};
ghost use Rattle.capture.specs.Recordings.{telegrams_of};
ghost use Rattle.capture.specs.Rows.{Added, Full, meters_of};

use crate::fault::CaptureFault;
use crate::row::{Row, TOO_MANY};
use std::alloc::{AllocError, Global};
use telegram::address::Address;

// The most meters of a capture.
const MOST_METERS: usize = 250;

// A row for each meter, with room for as many as a capture may have.
#[derive(Drop)]
pub(crate) struct Rows {
    pub(crate) list: Vec<Row>,
    ghost few: { vec_len list ≤ 250 },
    ghost room: { 250 ≤ vec_capacity list },
}

impl Rows {
    // Gets the memory; refused only where there is none.
    pub(crate) fn new(heap: Global) -> Result<Rows, AllocError>
        ensures { IfOk result (λ x. x.list.items ≡ []) }
    {
        let list = Vec::with_capacity(heap, MOST_METERS)?;
        Ok(Rows { list })
    }

    // How many telegrams the meters have together.
    pub(crate) fn telegrams(&self) -> usize
        ensures count { (bytes : List ℕ) → result ≡ length (telegrams_of (meters_of bytes self.now.list.items)) }
        ensures few { result ≤ 4000 }
    {
        self.list.iter().map(|row| row.starts.len()).sum()
    }

    // Adds a meter, unless there are as many as a capture may have.
    fn begin(&mut self, row: Row) -> Result<(), CaptureFault>
        ensures { MatchResult result (λ _. (vec_len self.old.list < 250) × (self.new.list.items ≡ self.old.list.items ++ row ∷ [])) (λ e. (250 ≤ vec_len self.old.list) × (e.telegram ≡ None) × (e.cause ≡ Size) × (self.new.list.items ≡ self.old.list.items)) }
    {
        if self.list.len() >= MOST_METERS {
            return Err(TOO_MANY);
        }
        self.list.push_reserved(row);
        Ok(())
    }

    // Adds the telegram that starts at a place and carries an address: to the last meter where that has
    // the same address, else as a new meter's.
    pub(crate) fn add(&mut self, address: Address, start: usize) -> Result<(), CaptureFault>
        ensures { (bytes : List ℕ) → MatchResult result (λ _. Added (meters_of bytes self.old.list.items) (telegram_from bytes start) (address_bytes address) (meters_of bytes self.new.list.items)) (λ e. (e.telegram ≡ None) × Full (meters_of bytes self.old.list.items) (address_bytes address) e.cause × (meters_of bytes self.new.list.items ≡ meters_of bytes self.old.list.items)) }
    {
        // Two conditions: of both in one, the proof forgets that there is no last row.
        if let Some(row) = self.list.last_mut() {
            if row.address == address {
                return row.add(start);
            }
        }
        self.begin(Row::new(address, start))
    }
}
