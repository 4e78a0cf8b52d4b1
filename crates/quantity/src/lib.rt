// What the VIF of a record means: a quantity, a unit and a power of ten.
#![tactic(auto)]

pub mod meaning;
pub mod quantity;
mod table;
pub mod unit;
