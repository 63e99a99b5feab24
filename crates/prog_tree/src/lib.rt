// The code's tree of a program with source matches.
#![tactic(auto)]

pub use ir_tables;

pub mod nodes;
pub mod tree;
