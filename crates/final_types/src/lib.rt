// The types of a solver as a program has them at the end.
#![tactic(auto)]

pub use ir_prog;

pub mod bound;
pub mod enter;
pub mod finish;
pub mod making;
pub mod names;
pub mod node;
pub mod program;
pub mod source;
pub mod step;
