// What each operand format takes, and the kind, register and value that a number or a symbol gives [M section 7] [S The table].
#![tactic(auto)]

pub mod formats;
pub mod values;
