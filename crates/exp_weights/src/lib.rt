// How many nodes of the source an expression stands for, written into the program.
#![tactic(auto)]

pub mod counted;
pub mod decs;
pub mod exps;
pub mod law;
pub mod pats;
