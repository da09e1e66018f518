// The fields of each entry of a table, judged on their own [S The table].
#![tactic(auto)]

pub mod fields;
