// What the program prints for a deck, and for a deck with a list of calls.
#![tactic(auto)]

pub mod answers;
pub mod entries;
pub mod print;
mod reply;
