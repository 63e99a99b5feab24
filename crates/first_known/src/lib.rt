// What checkers of programs without function values ask: which variables are in scope, and whether operations, calls and tables are well formed.
#![tactic(auto)]

pub mod answers;
pub mod calls;
pub mod operations;
pub mod scope;
pub mod tables;
