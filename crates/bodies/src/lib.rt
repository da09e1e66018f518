// The layout of a table in code, and the body of each place.
#![tactic(auto)]

pub mod body;
pub mod entry;
