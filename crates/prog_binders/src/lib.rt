// The variables that a program with source matches binds, and whether each is bound once.
#![tactic(auto)]

pub mod exps;
pub mod once;
pub mod pats;
