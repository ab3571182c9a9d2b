// Changes that the log keeps, and their undoing; what a step of a merge answers.
#![tactic(auto)]

pub mod log;
pub mod refusals;
