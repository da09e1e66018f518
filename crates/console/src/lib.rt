// What a program that speaks to a person needs: a page to put messages together in, the lines of a text, words as they are written, and what the system gives.
#![tactic(auto)]

pub mod lines;
pub mod page;
pub mod stream;
pub mod word;
