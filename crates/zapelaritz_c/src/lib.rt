// The calls for C and Rust, on numbers and slices alone. No function holds state.
#![tactic(auto)]

mod calls;
mod print;
mod sizes;
