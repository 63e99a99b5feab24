// Exceptions that copies make.
#![tactic(auto)]

pub mod law;
