// A test line made from a table: rows of meters, an area with the bodies of their telegrams, and codes that say
// which exchanges fail and how.
#![tactic(auto)]

pub mod bench;
mod check;
pub mod fault;
mod fault_codes;
pub mod row;
mod table;
