// Printing what telegrams and calls say, as all programs do.
#![tactic(auto)]

pub mod outcome;
pub mod telegram_items;
