// The items in the body of a reply telegram, one by one, and the readings among them as a list.
#![tactic(auto)]

pub mod collect;
pub mod item;
pub mod reader;
