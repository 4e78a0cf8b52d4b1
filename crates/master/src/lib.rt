// The master of a line: search, pick, fetch and release.
#![tactic(auto)]

pub mod fault;
pub mod master;
mod probe;
mod walk;
