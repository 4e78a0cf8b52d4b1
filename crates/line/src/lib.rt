// A line by what it means, requests sent on any line, and a retry layer over any line.
#![tactic(auto)]

pub mod fault;
pub mod line;
pub mod retry;
pub mod sending;
