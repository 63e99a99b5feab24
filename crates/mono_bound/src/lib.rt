// What a program with simple types binds.
#![tactic(auto)]

pub mod bound;
pub mod law;
