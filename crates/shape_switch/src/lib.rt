// The shape rules of a switch: its list of IFFs, its default and its ESW [S Shape rules].
#![tactic(auto)]

pub mod switch;
