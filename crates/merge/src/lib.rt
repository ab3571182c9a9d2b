// The merge on the lent tables: the waiting trees, the counts, and the calls.
#![tactic(auto)]

pub mod calls;
pub mod counts;
pub mod tree;
