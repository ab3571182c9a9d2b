// The insert range of a content list.
#![tactic(auto)]

pub mod range;
