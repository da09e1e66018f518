// The operations of cards: what a line's operation is, its label, its sort and the formats of its operands [S Cards].
// Functions that read the operation table take it lent.
#![tactic(auto)]

pub mod codes;
pub mod formats;
pub mod labels;
pub mod names;
pub mod sorts;
