// The whole decoder behind one C function, so that other languages can measure it and hold it against another decoder.
#![tactic(auto)]

mod digest;
pub mod telegram_digest;
