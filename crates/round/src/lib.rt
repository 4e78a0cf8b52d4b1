// Any list of calls on a master over any line.
#![tactic(auto)]

pub mod any_master;
pub mod call;
mod places;
mod runs;
mod steps;
