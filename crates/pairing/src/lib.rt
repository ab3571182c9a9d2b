// Pairing: the children of both sides, their keys, and the plan of a level.
#![tactic(auto)]

pub mod action;
pub mod children;
pub mod keys;
pub mod lent;
pub mod marks;
pub mod plan;
pub mod sibling;
pub mod walk;
