// A list of fixed capacity, and its refusal.
#![tactic(auto)]

pub mod fixed_list;
pub mod full;
