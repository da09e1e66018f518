// Operands of cards: the kind, register and value that a form gives where its format takes it [M section 7] [S The table].
#![tactic(auto)]

pub mod operands;
