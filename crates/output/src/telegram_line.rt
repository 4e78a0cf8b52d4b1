// The end of a telegram whose body was read to its end.
use crate::yes_no::YesNo;
use std::fmt;

#[derive(Drop)]
pub struct TelegramLine {
    pub readings: usize,
    // more telegrams follow
    pub more: bool,
}

impl fmt::Display for TelegramLine {
    fn fmt<W: fmt::Write>(&self, f: &mut fmt::Formatter<W>) -> fmt::Result {
        write!(
            f,
            "kind=telegram readings={} more={}",
            self.readings,
            YesNo(self.more)
        )
    }
}
