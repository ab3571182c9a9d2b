// The test of any table: the part of refusal 0 that needs no rule of deck or merge.
#![tactic(auto)]

pub mod area_test;
pub mod elements_test;
pub mod index_test;
pub mod log_test;
pub mod model_test;
pub mod scan;
pub mod schema_test;
pub mod test;
