// The search of a line for meters by the beginnings of their numbers.
#![tactic(auto)]

pub mod beginning;
pub mod entry;
pub mod laws;
