// The grammar of programs with modules as a function that reads it, and the laws of both.
#![tactic(auto)]

pub mod law;
