// In a program with simple types what is a function by itself becomes a function, wherever it stands as a value.
#![tactic(auto)]

pub mod expand;
mod scope;
mod walk;
