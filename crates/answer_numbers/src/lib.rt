// The answers of the calls as numbers, for callers in C and Rust.
#![tactic(auto)]

pub mod numbers;
