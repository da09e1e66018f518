// What the shape rules ask of places: where control may go, and the exit list under a JSR [S Shape rules].
#![tactic(auto)]

pub mod exits;
pub mod reach;
