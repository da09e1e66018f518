// The values of a switch's IFFs are below its limit, and distinct [S Shape rules]: pair by pair, which settles any list, and by marks, which
// settles usual ones in one walk.
#![tactic(auto)]

pub mod marks;
pub mod pairs;
