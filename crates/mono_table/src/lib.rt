// Whether the types of a program are a table.
#![tactic(auto)]

pub use mono_uses;

pub mod table;
