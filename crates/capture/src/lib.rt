// A line made from a capture: recorded reply telegrams, end to end.
#![tactic(auto)]

pub mod capture;
pub mod fault;
mod index;
mod reader;
mod recording;
mod row;
mod rows;
pub mod store;
mod table;
