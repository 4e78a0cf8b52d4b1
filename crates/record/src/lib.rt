// The records in the body of a reply telegram.
#![tactic(auto)]

mod chain;
mod coding;
pub mod decode;
pub mod fault;
mod number;
mod parsed;
mod positional;
pub mod reading;
mod value;
