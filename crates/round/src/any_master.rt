// A master in either state.
use master::master::{Idle, Picked};

#[derive(Drop)]
pub enum Master<L> {
    Idle(Idle<L>),
    Picked(Picked<L>),
}

// How many of a list of calls were made, and how many entries their searches listed.
#[derive(Clone, Copy)]
pub struct Progress {
    pub calls: usize,
    pub entries: usize,
}
