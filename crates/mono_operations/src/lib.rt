// Programs of simple types as the code has them, and what a checker asks of operations.
#![tactic(auto)]

pub use mono_uses;

pub mod atom;
pub mod distinct;
pub mod operation;
pub mod tables;
