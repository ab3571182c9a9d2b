// Schema calls and schema rules on the lent schema table.
#![tactic(auto)]

pub mod calls;
pub mod files;
pub mod rules;
pub mod search;
