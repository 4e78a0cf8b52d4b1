// A line of input that cannot be read.
use std::fmt;

#[derive(Drop)]
pub struct UnreadableLine {
    // counted from 1
    pub line: u64,
}

impl fmt::Display for UnreadableLine {
    fn fmt<W: fmt::Write>(&self, f: &mut fmt::Formatter<W>) -> fmt::Result {
        write!(f, "kind=unreadable line={}", self.line)
    }
}
