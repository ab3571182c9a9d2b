// What becomes of a pair: the extension, or the fallback.
#![tactic(auto)]

pub mod settle;
