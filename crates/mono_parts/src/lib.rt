// What of copying doesn't recurse: operations, arms, and what steps bind.
#![tactic(auto)]

pub use mono_state;
pub use tests_check;

pub mod arms;
pub mod operations;
pub mod steps;
