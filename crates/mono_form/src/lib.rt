// Programs of simple types, and the checker of them.
#![tactic(auto)]

pub use mono_check::mono_operations;

pub mod check;
pub mod parts;
pub mod program;
