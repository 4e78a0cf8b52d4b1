// A line made from recorded telegrams.
ghost use Rattle.std.specs.Prelude.{◌≡◌, length};
ghost use Rattle.line.specs.Exchanges.{Sound};
ghost use Rattle.capture.specs.Meaning.{recorded, state_of};
ghost use Rattle.capture.specs.Recordings.{telegrams_of};

use crate::recording::Recording;
use bus::meter_bus::MeterBus;

pub mod as_line;
pub mod making;

#[derive(Drop)]
pub struct Capture {
    bus: MeterBus<Recording>,
    // how many telegrams the meters have together
    telegrams: usize,
    ghost sound: { ∥ Sound (state_of bus) ∥₁ },
    ghost counted: { telegrams ≡ length (telegrams_of (recorded bus.table)) },
}
