// Symbols of a deck: what a name means, which fields are one use, and one symbol more [S Cards] [S 3].
#![tactic(auto)]

pub mod fields;
pub mod list;
pub mod meanings;
pub mod uses;
