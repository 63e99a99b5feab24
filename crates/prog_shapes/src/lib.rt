// What an expression says of itself.
#![tactic(auto)]

pub mod types;
