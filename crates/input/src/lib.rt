// What the programs read: lines of text, bytes in them as hexadecimal pairs.
#![tactic(auto)]

pub mod hex;
pub mod line;
