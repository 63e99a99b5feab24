// Other numbers for the types of a program's tree.
#![tactic(auto)]

pub mod body;
pub mod numbers;
mod pats;
