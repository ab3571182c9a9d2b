// The lines of a list of calls, read.
#![tactic(auto)]

pub mod requests;
