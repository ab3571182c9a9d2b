// Files read, and the output written part by part: what no proof speaks of.
#![tactic(auto)]

pub mod answers;
pub mod buffer;
pub mod files;
pub mod parts;
