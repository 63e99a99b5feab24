// What the functions of a program with simple types capture, and of which pieces their closures are made.
#![tactic(auto)]

mod found;
pub mod table;
mod uses;
mod walk;
