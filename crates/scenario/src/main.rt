// Reads a test house, makes its bench and the layers over it, and makes the calls on a master of the topmost.
#![tactic(auto)]

ghost use Rattle.std.specs.Prelude.{◌<◌, ◌≤◌, length};

use bench::bench::Bench;
use house::house::House;
use line::line::Line;
use line::retry::Retry;
use link::fault::Fault;
use output::bench::SizesLine;
use output::unreadable::UnreadableLine;
use printing::outcome::print_outcome;
use printing::telegram_items::print_fault;
use round::any_master::Master;
use round::call::{Call, Outcome};
use search::entry::{Entry, NOTHING};
use std::io;
use std::io::{BufRead, BufReader, BufWriter, Write};

// As many calls are made at a time.
const MOST_CALLS: usize = 64;

// The most places that a search can have for meters, and those that it has if no line says otherwise.
const MOST_PLACES: usize = 250;

// What is done with a line once it is made.
#[derive(Clone, Copy)]
struct Plan<'a> {
    sizes: SizesLine,
    calls: &'a [Call],
    // the places of each search
    places: usize,
}

// How many of the calls to make at a time: up to the first search, so that each search has its places to itself.
fn stretch(calls: &[Call]) -> usize
    ensures { (result ≤ length calls.now) × (0 < length calls.now → 0 < result) }
{
    let most = calls.len().min(MOST_CALLS);
    calls[..most]
        .iter()
        .position(|call| matches!(call, Call::Search))
        .map_or(most, |i| i + 1)
}

// Prints the outcomes of calls, the first of which has this number.
fn print_outcomes<O: Write>(
    out: &mut O,
    first: u64,
    outcomes: &[Outcome],
    entries: &[Entry],
) -> io::Result<()> {
    for (number, outcome) in (first..).zip(outcomes) {
        print_outcome(out, number, outcome, entries)?;
    }
    Ok(())
}

// Makes calls on a line that nobody has used yet, and prints what each gave. Each search has all places for its entries.
fn make_calls<L: Line + Drop, O: Write>(
    out: &mut O,
    line: L,
    calls: &[Call],
    outcomes: &mut [Outcome],
    entries: &mut [Entry],
) -> io::Result<()> {
    let (now, mut left) = calls.split_at(stretch(calls));
    let (mut master, progress) = Master::start(line, now, outcomes, entries);
    print_outcomes(out, 1, &outcomes[..progress.calls], entries)?;
    // a loop, since each turn takes the master and gives it back
    while !left.is_empty() {
        let first = (calls.len() - left.len()) as u64;
        let (now, rest) = left.split_at(stretch(left));
        let (after, progress) = master.run(now, outcomes, entries);
        master = after;
        left = rest;
        let number = first.saturating_add(1);
        print_outcomes(out, number, &outcomes[..progress.calls], entries)?;
    }
    Ok(())
}

// Prints the sizes of what was made, and makes the calls of a plan.
fn run<L: Line + Drop, O: Write>(out: &mut O, line: L, plan: Plan) -> io::Result<()> {
    writeln!(out, "{}", plan.sizes)?;
    let mut outcomes = [Outcome::Misuse; MOST_CALLS];
    let mut entries = [NOTHING; MOST_PLACES];
    let places = plan.places.min(MOST_PLACES);
    make_calls(
        out,
        line,
        plan.calls,
        &mut outcomes,
        &mut entries[0..places],
    )
}

// Puts a layer on a line, or prints why there can be none.
fn make_layer<L: Line + Drop, O: Write>(
    out: &mut O,
    line: L,
    limit: u8,
) -> io::Result<Option<Retry<L>>> {
    match Retry::new(line, limit) {
        Ok(layer) => Ok(Some(layer)),
        Err(fault) => {
            print_fault(out, None, &fault)?;
            Ok(None)
        }
    }
}

// Puts the layers on the bench, the first below, and goes on with the topmost. Each pile of layers has a type of its own,
// so that a loop cannot hold them.
fn make_layers<O: Write>(out: &mut O, bench: Bench, limits: &[u8], plan: Plan) -> io::Result<()> {
    let Some((limit, limits)) = limits.split_first() else {
        return run(out, bench, plan);
    };
    let Some(first) = make_layer(out, bench, *limit)? else {
        return Ok(());
    };
    let Some((limit, limits)) = limits.split_first() else {
        return run(out, first, plan);
    };
    let Some(second) = make_layer(out, first, *limit)? else {
        return Ok(());
    };
    let Some(limit) = limits.first() else {
        return run(out, second, plan);
    };
    let Some(third) = make_layer(out, second, *limit)? else {
        return Ok(());
    };
    run(out, third, plan)
}

// Makes the bench of a house and the layers over it.
fn make<O: Write>(out: &mut O, house: House) -> io::Result<()> {
    let House {
        rows,
        area,
        codes,
        limits,
        places,
        calls,
    } = house;
    let bench = match Bench::new(rows, area, codes) {
        Ok(bench) => bench,
        Err(fault) => return print_fault(out, None, &fault),
    };
    let sizes = SizesLine {
        meters: bench.meters(),
        codes: bench.codes(),
        layers: limits.len(),
    };
    let plan = Plan {
        sizes,
        calls: calls.as_slice(),
        places: places.map_or(MOST_PLACES, usize::from),
    };
    make_layers(out, bench, limits.as_slice(), plan)
}

fn main(rt: HostRuntime) -> anyhow::Result<()> {
    let mut out = BufWriter::new(rt.alloc(), rt.stdout())?;
    let mut house = House::new(rt.alloc());
    let mut readable = true;
    let lines = BufReader::new(rt.alloc(), rt.stdin())?.split(rt.alloc(), b'\n');
    for (line, text) in (1..).zip(lines) {
        house = match house.prepare(rt.alloc(), text?)?.add() {
            Ok(house) => house,
            Err(unreadable) => {
                readable = false;
                writeln!(out, "{}", UnreadableLine { line })?;
                unreadable.house
            }
        };
    }
    if readable {
        make(&mut out, house)?;
    }
    out.flush()?;
    Ok(())
}
