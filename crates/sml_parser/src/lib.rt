// The parser of the core.
#![tactic(auto)]

pub mod read;
