// The world inside a `val` declaration.
#![tactic(auto)]

pub mod law;
