// What the assembler answers by one test: a line's verdict by its number, and the table where there is room for it [S Numbers the host sees].
#![tactic(auto)]

pub mod room;
pub mod verdict;
