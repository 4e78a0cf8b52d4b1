// What calls on a master gave.
use crate::telegram_items::{print_fault, print_items};
use output::call::{MisuseLine, PickedLine, ReleasedLine, SearchLine};
use output::entry::EntryLine;
use round::call::{Found, Outcome};
use search::entry::Entry;
use std::io;
use std::io::Write;

// Prints a line for each entry of a search, where an entry found no place that fault, and what the search reports.
fn print_found<O: Write>(out: &mut O, found: &Found, entries: &[Entry]) -> io::Result<()> {
    let summary = found.summary();
    for entry in entries.iter().skip(found.from).take(summary.entries) {
        writeln!(out, "{}", EntryLine(*entry))?;
    }
    if let Err(fault) = found.result {
        print_fault(out, None, &fault)?;
    }
    writeln!(out, "{}", SearchLine(summary))
}

// Prints the outcome of the call with this number, where a search put its entries into these places.
// Answers whether a telegram was fetched that says that more follow.
pub fn print_outcome<O: Write>(
    out: &mut O,
    call: u64,
    outcome: &Outcome,
    entries: &[Entry],
) -> io::Result<bool> {
    match outcome {
        Outcome::Found(found) => print_found(out, found, entries)?,
        Outcome::Picked(answered) => {
            let answered = *answered;
            writeln!(out, "{}", PickedLine { answered })?
        }
        Outcome::Fetched(Ok(telegram)) => return print_items(out, None, telegram.bytes()),
        Outcome::Fetched(Err(fault)) => print_fault(out, None, fault)?,
        Outcome::Released => writeln!(out, "{}", ReleasedLine)?,
        Outcome::Misuse => writeln!(out, "{}", MisuseLine { call })?,
    }
    Ok(false)
}
