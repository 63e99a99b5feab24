// What is asked of each part of a program with source matches: one node for what the source writes in one go, one question for each of its parts.
#![tactic(auto)]

pub use prog_binds;

pub mod law;
