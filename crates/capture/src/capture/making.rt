// Making a capture, and its sizes.
ghost use Rattle.std.specs.Prelude.{◌≡◌, ◌<◌, ◌≤◌, length, None, MatchResult};
ghost use Rattle.capture.specs.declared.fault.Cause.TheVariants.{Size};
ghost use Rattle.capture.specs.Captures.{Opened, Refuses, capture_meters};
ghost use Rattle.capture.specs.Recordings.{telegrams_of};

use super::Capture;
use crate::fault::CaptureFault;
use crate::index::read_all;
use crate::recording::Recording;
use crate::row::TOO_MANY;
use crate::rows::Rows;
use crate::store::Store;
use bus::meter_bus::MeterBus;
use bus::table::Table;

// The most bytes of a capture.
const MOST_BYTES: usize = 60_000;

// Refuses too many bytes.
fn check_size(bytes: usize) -> Result<(), CaptureFault>
    ensures { MatchResult result (λ _. bytes ≤ 60000) (λ e. (60000 < bytes) × (e.telegram ≡ None) × (e.cause ≡ Size)) }
{
    if bytes > MOST_BYTES {
        return Err(TOO_MANY);
    }
    Ok(())
}

impl Capture {
    // Reads all telegrams; neighbours with equal addresses are one meter's. The first fault is told, but too many
    // bytes before all else.
    pub fn new(store: Store, bytes: Vec<u8>) -> Result<Capture, CaptureFault>
        ensures { MatchResult result (λ c. Opened bytes.items c) (λ e. Refuses bytes.items e) }
    {
        check_size(bytes.len())?;
        let rows = read_all(store, &bytes)?;
        let telegrams = rows.telegrams();
        let Rows { list } = rows;
        let bus = MeterBus::new(Recording { bytes, rows: list });
        Ok(Capture { bus, telegrams })
    }

    // How many meters the capture has.
    pub fn meters(&self) -> usize
        ensures { result ≡ length (capture_meters self.now) }
    {
        self.bus.count()
    }

    // How many telegrams its meters have together.
    pub fn telegrams(&self) -> usize
        ensures { result ≡ length (telegrams_of (capture_meters self.now)) }
    {
        self.telegrams
    }
}
