// What travels in frames: addresses and the patterns that fit them, requests, reply telegrams.
#![tactic(auto)]

pub mod address;
pub mod digits;
pub mod fault;
pub mod matches;
pub mod pattern;
pub mod reply;
pub mod request;
