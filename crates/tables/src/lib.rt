// The lent tables: number types, file sets, paths, texts, and the encoding of schema, elements, model and log in cells.
#![tactic(auto)]

pub mod cells;
pub mod elements;
pub mod file_set;
pub mod index;
pub mod limits;
pub mod log;
pub mod model;
pub mod numbers;
pub mod path;
pub mod schema;
pub mod text;
