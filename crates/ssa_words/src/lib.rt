// Programs in SSA form from flat lists of words, for tests and measurements.
#![tactic(auto)]

pub mod build;
pub mod standard;
pub mod words;
