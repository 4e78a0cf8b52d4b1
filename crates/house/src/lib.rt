// The text of a test house: lines that give a bench's area, meters and fault codes, the layers over it, and the
// calls on a master above them.
#![tactic(auto)]

mod address;
mod field;
pub mod house;
mod house_line;
mod keyword;
mod number;
pub mod pending;
mod room;
mod source;
mod words;
