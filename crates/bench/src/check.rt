// The check before a bench is made.
ghost use Rattle.std.specs.Prelude.{◌≡◌};
ghost use Rattle.link.specs.Checks.{first_fault};
ghost use Rattle.bench.specs.Checks.{bench_refusal, code_checks, row_checks, size_checks};
ghost use Rattle.bench.specs.Faults.{bench_fault};

use crate::fault::BenchFault;
use crate::fault_codes::Code;
use crate::row::Row;

const MOST_ROWS: usize = 250;

const MOST_BYTES: usize = 65_535;

const MOST_CODES: usize = 4_096;

fn check_sizes(rows: usize, bytes: usize, codes: usize) -> Result<(), BenchFault>
    ensures { bench_fault result ≡ first_fault (size_checks rows bytes codes) }
{
    if rows > MOST_ROWS || bytes > MOST_BYTES || codes > MOST_CODES {
        return Err(BenchFault::Size);
    }
    Ok(())
}

// Refuses the first row that does not fit an area of this size.
fn check_rows(rows: &[Row], size: usize) -> Result<(), BenchFault>
    ensures { bench_fault result ≡ first_fault (row_checks size 0 rows.now) }
{
    rows.iter()
        .position(|row| !row.fits(size))
        .map_or(Ok(()), |number| Err(BenchFault::Row { number }))
}

// Refuses the first code that is none.
fn check_codes(codes: &[u8]) -> Result<(), BenchFault>
    ensures { bench_fault result ≡ first_fault (code_checks 0 codes.now) }
{
    codes
        .iter()
        .position(|code| Code::try_from(*code).is_err())
        .map_or(Ok(()), |number| Err(BenchFault::Code { number }))
}

// The first fault of what a bench is to be made from: sizes, then rows, then codes.
#[tactic(auto, using(link::proofs::Ordering::first_joined), unfolding(crate::specs::Checks::bench_refusal))]
pub(crate) fn check(rows: &[Row], area: &[u8], codes: &[u8]) -> Result<(), BenchFault>
    ensures { bench_fault result ≡ bench_refusal rows.now area.now codes.now }
{
    check_sizes(rows.len(), area.len(), codes.len())?;
    check_rows(rows, area.len())?;
    check_codes(codes)
}
