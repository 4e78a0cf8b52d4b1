// Making a bench, and its sizes.
ghost use Rattle.std.specs.Prelude.{◌≡◌, length, is_ok, IfOk, Decides};
ghost use Rattle.link.specs.Checks.{FailsFirst};
ghost use Rattle.bench.specs.Benches.{New, codes_of, meaning};
ghost use Rattle.bench.specs.Checks.{bench_checks, bench_refusal};
ghost use Rattle.bench.specs.Codes.{Longest, longest};
ghost use Rattle.bench.specs.Faults.{bench_fault};
ghost use Rattle.bench.specs.Proper.{Proper};

use super::Bench;
use crate::check::check;
use crate::fault::BenchFault;
use crate::fault_codes::FaultCodes;
use crate::row::Row;
use crate::table::RowTable;
use bus::meter_bus::MeterBus;
use bus::table::Table;

impl Bench {
    // A bench whose meters have heard nothing, or the first fault of what it is to be made from.
    #[tactic(auto, using(crate::proofs::Ordering::order_of, crate::proofs::Making::decided, crate::proofs::Stretches::longest_is, crate::proofs::Making::accepted))]
    pub fn new(rows: Vec<Row>, area: Vec<u8>, codes: Vec<u8>) -> Result<Bench, BenchFault>
        ensures fault { bench_fault result ≡ bench_refusal rows.items area.items codes.items }
        ensures order { FailsFirst (bench_checks rows.items area.items codes.items) (bench_fault result) }
        ensures made_from { Decides (is_ok result) (Proper rows.items area.items codes.items) }
        ensures bench { IfOk result (New rows.items area.items codes.items) }
        ensures run { Longest codes.items (longest codes.items) }
    {
        check(&rows, &area, &codes)?;
        let bus = MeterBus::new(RowTable { rows, area });
        let faults = FaultCodes { codes, position: 0 };
        Ok(Bench { bus, faults })
    }

    // How many meters the bench has.
    pub fn meters(&self) -> usize
        ensures { result ≡ length (meaning self.now).bus.meters }
    {
        self.bus.count()
    }

    // How many fault codes the bench was made with.
    pub fn codes(&self) -> usize
        ensures { result ≡ length (codes_of self.now) }
    {
        self.faults.codes.len()
    }
}
