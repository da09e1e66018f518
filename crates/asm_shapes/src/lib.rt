// The fault of each place of a draft: the smallest number of a rule that it breaks, or 0 [S Shape rules] [S Numbers the host sees].
#![tactic(auto)]

pub mod classes;
pub mod faults;
pub mod loose;
