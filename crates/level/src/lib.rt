// Level and Pairs on the lent tables.
#![tactic(auto)]

pub mod lent;
pub mod level;
