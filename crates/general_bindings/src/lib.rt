// Bindings that are generalised over parameters, and new exceptions.
#![tactic(auto)]

pub use exp_blocks;
pub use exp_blocks::exp_steps;
pub use pattern_tests;
pub use pattern_tests::{match_steps, match_types};

pub mod bindings;
pub mod exceptions;
pub mod records;
