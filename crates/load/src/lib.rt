// Load: the lines of a deck, stored in the lent tables.
#![tactic(auto)]

pub mod load;
mod progress;
pub mod refusals;
mod schema_lines;
mod tree_lines;
