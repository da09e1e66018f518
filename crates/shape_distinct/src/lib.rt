// The values of a switch's IFFs are below its limit, and distinct [S Shape rules]: by marks, by order, or pair by pair.
#![tactic(auto)]

pub mod distinct;
pub mod rise;
