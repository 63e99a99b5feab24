// Closed types as numbers in a table that has each once, and datatypes there with the constructors that the program uses.
#![tactic(auto)]

mod code;
pub mod constructors;
pub mod types;
