// The shape rules of each class of operations, and of the cards that stand in lists [S Shape rules].
#![tactic(auto)]

pub mod cards;
pub mod flows;
