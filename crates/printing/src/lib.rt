// The trees of the tables as bytes in a lent buffer.
#![tactic(auto)]

pub mod buffer;
mod lines;
pub mod trees;
