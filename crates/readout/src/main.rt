// Reads the capture in the file capture.bin of the current folder, searches it, and prints what each meter's telegrams say.
#![tactic(auto)]

use capture::capture::Capture;
use capture::fault::CaptureFault;
use capture::store::Store;
use line::line::Line;
use output::capture::CaptureLine;
use printing::outcome::print_outcome;
use printing::telegram_items::print_fault;
use round::any_master::Master;
use round::call::{Call, Outcome};
use search::entry::{Entry, NOTHING};
use std::fs::File;
use std::io;
use std::io::{BufWriter, ErrorKind, Read, Write};
use telegram::address::Address;

const FILE: &str = "capture.bin";

// One byte more than a capture may have: what comes after it cannot change the answer.
const MOST_READ: u64 = 60_001;

// A meter has no more telegrams.
const MOST_TELEGRAMS: usize = 16;

// As many places for found meters as a capture may have meters.
const PLACES: usize = 250;

// The bytes of the file; a missing file counts as empty.
fn read_file(rt: &HostRuntime) -> io::Result<Vec<u8>> {
    let mut bytes = Vec::new(rt.alloc());
    let file = match File::open(rt, FILE) {
        Ok(file) => file,
        Err(error) if error.kind() == ErrorKind::NotFound => return Ok(bytes),
        Err(error) => return Err(error),
    };
    file.take(MOST_READ).read_to_end(&mut bytes)?;
    Ok(bytes)
}

// Prints why a capture is refused.
fn print_refusal<O: Write>(out: &mut O, fault: CaptureFault) -> io::Result<()> {
    let telegram = fault.telegram.map(|number| number as u64);
    print_fault(out, telegram, &fault)
}

// Makes one call, and prints its outcome. Answers the master, and whether a telegram was fetched that says that more follow.
fn call<L: Line + Drop, O: Write>(
    out: &mut O,
    master: Master<L>,
    call: Call,
) -> io::Result<(Master<L>, bool)> {
    let mut outcomes = [Outcome::Misuse];
    let (master, _) = master.run(&[call], &mut outcomes, &mut []);
    let more = print_outcome(out, 1, &outcomes[0], &[])?;
    Ok((master, more))
}

// Picks a meter, fetches its telegrams while more are to follow, and releases it.
fn read_meter<L: Line + Drop, O: Write>(
    out: &mut O,
    master: Master<L>,
    address: Address,
) -> io::Result<Master<L>> {
    let (mut master, _) = call(out, master, Call::Pick(address))?;
    for _ in 0..MOST_TELEGRAMS {
        let (after, more) = call(out, master, Call::Fetch)?;
        master = after;
        if !more {
            break;
        }
    }
    let (master, _) = call(out, master, Call::Release)?;
    Ok(master)
}

// Searches a line that nobody has used yet, and reads every meter found that has a number of its own.
fn read_line<L: Line + Drop, O: Write>(out: &mut O, line: L) -> io::Result<()> {
    let mut entries = [NOTHING; PLACES];
    let mut outcomes = [Outcome::Misuse];
    let (mut master, progress) = Master::start(line, &[Call::Search], &mut outcomes, &mut entries);
    print_outcome(out, 1, &outcomes[0], &entries)?;
    for entry in entries.iter().take(progress.entries) {
        if let Entry::Meter(address) = entry {
            master = read_meter(out, master, *address)?;
        }
    }
    Ok(())
}

// Prints the sizes of a capture, and reads its meters.
fn read_capture<O: Write>(out: &mut O, capture: Capture) -> io::Result<()> {
    let meters = capture.meters();
    let telegrams = capture.telegrams();
    writeln!(out, "{}", CaptureLine { meters, telegrams })?;
    read_line(out, capture)
}

fn main(rt: HostRuntime) -> anyhow::Result<()> {
    let store = Store::new(rt.alloc())?;
    let bytes = read_file(&rt)?;
    let mut out = BufWriter::new(rt.alloc(), rt.stdout())?;
    match Capture::new(store, bytes) {
        Ok(capture) => read_capture(&mut out, capture)?,
        Err(fault) => print_refusal(&mut out, fault)?,
    }
    out.flush()?;
    Ok(())
}
