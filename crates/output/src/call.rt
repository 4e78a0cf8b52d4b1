// What calls on a master gave.
use crate::yes_no::YesNo;
use master::fault::Summary;
use std::fmt;

// How many entries a search listed, and how many selections it sent.
#[derive(Drop)]
pub struct SearchLine(pub Summary);

impl fmt::Display for SearchLine {
    fn fmt<W: fmt::Write>(&self, f: &mut fmt::Formatter<W>) -> fmt::Result {
        let Summary {
            entries,
            selections,
        } = self.0;
        write!(f, "kind=search entries={entries} selections={selections}")
    }
}

// A pick, and whether any reply came.
#[derive(Drop)]
pub struct PickedLine {
    pub answered: bool,
}

impl fmt::Display for PickedLine {
    fn fmt<W: fmt::Write>(&self, f: &mut fmt::Formatter<W>) -> fmt::Result {
        write!(f, "kind=picked answered={}", YesNo(self.answered))
    }
}

// A release.
#[derive(Drop)]
pub struct ReleasedLine;

impl fmt::Display for ReleasedLine {
    fn fmt<W: fmt::Write>(&self, f: &mut fmt::Formatter<W>) -> fmt::Result {
        f.write_str("kind=released")
    }
}

// A call that the master's state lacks, by its number from 1.
#[derive(Drop)]
pub struct MisuseLine {
    pub call: u64,
}

impl fmt::Display for MisuseLine {
    fn fmt<W: fmt::Write>(&self, f: &mut fmt::Formatter<W>) -> fmt::Result {
        write!(f, "kind=misuse call={}", self.call)
    }
}
