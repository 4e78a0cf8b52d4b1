// What may be missing.
use std::fmt;

// A value, or `-` where there is none.
#[derive(Drop)]
pub struct Optional<T>(pub Option<T>);

impl<T: fmt::Display> fmt::Display for Optional<T> {
    fn fmt<W: fmt::Write>(&self, f: &mut fmt::Formatter<W>) -> fmt::Result {
        match &self.0 {
            Some(value) => write!(f, "{value}"),
            None => f.write_str("-"),
        }
    }
}
