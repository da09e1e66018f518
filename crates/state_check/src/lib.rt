// The check of a state on a table that passed its own [S Numbers the host sees].
// The check asks the table once for the body of each place, then each link and the place in turn.
#![tactic(auto)]

pub mod calls;
pub mod chain;
pub mod passing;
