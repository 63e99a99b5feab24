// The grammar of the core as a function that reads it, and the laws of both.
#![tactic(auto)]

pub mod law;
