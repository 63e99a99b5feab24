// Copies of a program's bindings, each at the types that it is used at.
#![tactic(auto)]

pub mod parts;
pub mod program;
pub mod walk;
