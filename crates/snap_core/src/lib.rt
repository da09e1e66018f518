// The parts of a snapshot's file: words copied between bytes and memory, its length, its trailer, its fresh words [S The snapshot].
#![tactic(auto)]

pub mod copy;
pub mod fresh;
pub mod layout;
pub mod trailer;
