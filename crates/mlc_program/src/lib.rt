// What the program mlc does: it compiles a project of Standard ML to an image of a word machine, and runs it.
#![tactic(auto)]

pub mod command;
mod compile;
mod exec;
mod exit;
pub mod file_store;
pub mod program;
mod say;
pub mod standard;
