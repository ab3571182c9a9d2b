// Deck and schema: fields, lines, rows, the line reader. The rules of this crate are in specs/.
#![tactic(auto)]

pub mod fields;
pub mod lines;
pub mod reader;
