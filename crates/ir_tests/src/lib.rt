// Programs of tests with explicit instances, and the checker of them.
#![tactic(auto)]

pub use tests_check;

pub mod check;
pub mod law;
pub mod program;
