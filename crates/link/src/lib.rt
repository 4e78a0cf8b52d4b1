// The link layer: frames, read from bytes and written into a telegram buffer.
#![tactic(auto)]

pub mod buffer;
pub mod fault;
pub mod frame;
pub mod reading;
pub mod writing;
