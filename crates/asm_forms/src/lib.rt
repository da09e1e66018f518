// The operands of a line as they are written: the form of an operand's text, and the texts of a line [S Cards] [M section 7].
#![tactic(auto)]

pub mod operand;
pub mod texts;
