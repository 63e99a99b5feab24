// What a source holds at its top, from tokens.
#![tactic(auto)]

pub mod functors;
pub mod signatures;
pub mod tops;
