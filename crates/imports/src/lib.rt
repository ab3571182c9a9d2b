// The import of elements.
#![tactic(auto)]

pub mod import;
