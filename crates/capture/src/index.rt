// The meters of a capture, by where their telegrams lie.
ghost use Rattle.std.specs.Prelude.{◌≡◌, ◌+◌, length, None, Some, MatchResult};
ghost use Rattle.capture.specs.Cutting.{telegram_from};
ghost use Rattle.capture.specs.Recordings.{Blocked, Recorded, Refusal, telegrams_of};
ghost use Rattle.capture.specs.Rows.{Followed, meters_of};

use crate::fault::CaptureFault;
use crate::reader::Reader;
use crate::rows::Rows;
use crate::store::Store;

// Takes the telegram at the reader's place into the rows.
fn take_telegram(reader: &mut Reader, rows: &mut Rows) -> Result<(), CaptureFault>
    ensures bytes { reader.new.bytes.now ≡ reader.old.bytes.now }
    ensures taken { MatchResult result (λ _. Followed reader.old.bytes.now reader.old.at (meters_of reader.old.bytes.now rows.old.list.items) reader.new.at (meters_of reader.old.bytes.now rows.new.list.items)) (λ e. (e.telegram ≡ None) × Blocked (meters_of reader.old.bytes.now rows.old.list.items) (telegram_from reader.old.bytes.now reader.old.at) e.cause × (meters_of reader.old.bytes.now rows.new.list.items ≡ meters_of reader.old.bytes.now rows.old.list.items)) }
{
    let start = reader.at;
    let address = reader.next()?;
    rows.add(address, start)
}

// The same, and a fault is told with the number of its telegram, from 1.
fn read_telegram(reader: &mut Reader, rows: &mut Rows) -> Result<(), CaptureFault>
    ensures bytes { reader.new.bytes.now ≡ reader.old.bytes.now }
    ensures taken { MatchResult result (λ _. Followed reader.old.bytes.now reader.old.at (meters_of reader.old.bytes.now rows.old.list.items) reader.new.at (meters_of reader.old.bytes.now rows.new.list.items)) (λ e. (e.telegram ≡ Some (length (telegrams_of (meters_of reader.old.bytes.now rows.old.list.items)) + 1)) × Blocked (meters_of reader.old.bytes.now rows.old.list.items) (telegram_from reader.old.bytes.now reader.old.at) e.cause) }
{
    take_telegram(reader, rows).map_err(|fault| fault.in_telegram(rows.telegrams() + 1))
}

// Reads all telegrams, or tells the first fault with the number of its telegram.
pub(crate) fn read_all(store: Store, bytes: &[u8]) -> Result<Rows, CaptureFault>
    ensures { MatchResult result (λ x. Recorded bytes.now (meters_of bytes.now x.list.items)) (λ e. Refusal bytes.now e) }
{
    let Store { mut rows } = store;
    let mut reader = Reader::new(bytes);
    // no iterator: what reads a telegram narrows the reader and may refuse, and the refusal needs the rows
    while reader.at < reader.end {
        read_telegram(&mut reader, &mut rows)?;
    }
    Ok(rows)
}
