// What the scripts that forge tables are made of: their lines, the areas of the tables by their names, and the cells of all tables in one
// array. And machine words, floats and bytes, shown on values computed by hand.
#![tactic(auto)]

pub mod areas;
pub mod cells;
pub mod lines;
pub mod words;
