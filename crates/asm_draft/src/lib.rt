// The words of a deck's table: header, entries, fresh addresses, exit counts, starting words [S The table].
#![tactic(auto)]

pub mod cards;
pub mod deck;
pub mod operands;
pub mod store;
pub mod texts;
