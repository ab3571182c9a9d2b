// The rest of refusal 0: schema rules, files, roots and rows of tables that pass their own test.
#![tactic(auto)]

pub mod files;
pub mod roots;
pub mod schema;
pub mod state;
