// The lines of `key=value` fields that the programs print, one type with a `Display` for each kind of line.
#![tactic(auto)]

pub mod bench;
pub mod call;
pub mod capture;
pub mod entry;
pub mod fault;
pub mod frame;
pub mod hex;
pub mod manufacturer;
mod optional;
pub mod reading;
pub mod reply;
pub mod telegram_line;
pub mod unreadable;
mod yes_no;
