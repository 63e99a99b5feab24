// The steps of single operations.
#![tactic(auto)]

pub use match_types;

pub mod steps;
