// Adding lines to a house.
ghost use Rattle.std.specs.Prelude.{◌≡◌, length, is_some, IfOk, MatchOption};
ghost use Rattle.house.specs.Houses.{Adds, RefusesLine, TakesLine, no_parts, parts_of};
ghost use Rattle.house.specs.Lines.{added, said};
ghost use Rattle.house.specs.Memory.{TakesMore};
ghost use Rattle.house.specs.Taking.{Accepts};

use super::Pending;
use crate::house::{House, Unreadable};
use crate::house_line::{HouseLine, read_line};
use crate::room::Room;
use crate::source::Source;
use std::alloc::{AllocError, Global};

const MOST_LAYERS: usize = 3;

impl House {
    // A house without lines.
    pub fn new(heap: Global) -> House
        ensures { parts_of result ≡ no_parts }
    {
        House {
            rows: Vec::new(heap),
            area: Vec::new(heap),
            codes: Vec::new(heap),
            limits: Vec::new(heap),
            places: None,
            calls: Vec::new(heap),
        }
    }

    // Gets the memory for all that a line, given without its line feed, can add.
    pub fn prepare(mut self, heap: Global, line: Vec<u8>) -> Result<Pending, AllocError>
        ensures house { IfOk result (λ p. parts_of p.house ≡ parts_of self) }
        ensures line { IfOk result (λ p. p.line.items ≡ line.items) }
    {
        let size = line.len();
        self.rows.reserve(1)?;
        self.area.reserve(size)?;
        self.codes.reserve(size)?;
        self.limits.reserve(1)?;
        self.calls.reserve(1)?;
        let room = Room {
            bytes: Vec::with_capacity(heap, size)?,
            bodies: Vec::with_capacity(heap, size)?,
        };
        Ok(Pending {
            house: self,
            line,
            room,
        })
    }

    // Adds what a line says. `None`: the house does not take it, and stays as it was.
    fn take(&mut self, line: HouseLine) -> Option<()>
        requires { TakesMore self.old (added (said line)) }
        ensures { Accepts (parts_of self.old) (said line) (is_some result) (parts_of self.new) }
    {
        match line {
            HouseLine::Skipped => {}
            HouseLine::Area(bytes) => {
                let _ = self.area.extend_from_slice(bytes.as_slice());
            }
            HouseLine::Meter(row) => self.rows.push_reserved(row),
            HouseLine::Fault(codes) => {
                let _ = self.codes.extend_from_slice(codes.as_slice());
            }
            HouseLine::Retry(limit) => {
                if self.limits.len() >= MOST_LAYERS {
                    return None;
                }
                self.limits.push_reserved(limit);
            }
            HouseLine::Places(count) => {
                if self.places.is_some() {
                    return None;
                }
                self.places = Some(count);
            }
            HouseLine::Call(call) => self.calls.push_reserved(call),
        }
        Some(())
    }

    // Adds what a line, given without its line feed, says. `None`: it says nothing that the house takes, which stays
    // as it was.
    #[tactic(auto, using(crate::proofs::Adding::few_said, crate::proofs::Adding::takes_less, crate::proofs::Adding::unsaid_line))]
    fn read(&mut self, line: Source) -> Option<()>
        requires { TakesMore self.old (length line.text.now) }
        ensures { MatchOption result (RefusesLine (parts_of self.old) line.entry.text.now (parts_of self.new)) (λ taken. TakesLine (parts_of self.old) line.entry.text.now (parts_of self.new)) }
    {
        self.take(read_line(line)?)
    }
}

impl Pending {
    // Adds what the line says, or refuses a line that says nothing which the house takes.
    pub fn add(self) -> Result<House, Unreadable>
        ensures { Adds (parts_of self.house) self.line.items result }
    {
        let Pending {
            mut house,
            line,
            room,
        } = self;
        let source = Source {
            text: line.as_slice(),
            room,
        };
        match house.read(source) {
            Some(()) => Ok(house),
            None => Err(Unreadable { house }),
        }
    }
}
