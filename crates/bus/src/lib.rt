// Meters that hear requests and answer them: what all lines made from a table of meters share.
#![tactic(auto)]

mod choice;
mod due;
mod memory;
pub mod meter_bus;
pub mod table;
