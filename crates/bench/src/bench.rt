// A test line made from a table.
ghost use Rattle.line.specs.Exchanges.{Sound};
ghost use Rattle.bench.specs.Meaning.{state_of};

use crate::fault_codes::FaultCodes;
use crate::table::RowTable;
use bus::meter_bus::MeterBus;

pub mod as_line;
pub mod making;

#[derive(Drop)]
pub struct Bench {
    bus: MeterBus<RowTable>,
    faults: FaultCodes,
    ghost sound: { ∥ Sound (state_of bus faults) ∥₁ },
}
