// The steps of single expressions, behind those of their parts.
#![tactic(auto)]

pub use match_steps;
pub use match_steps::match_types;

pub mod atoms;
pub mod calls;
pub mod joins;
pub mod operations;
pub mod records;
pub mod types;
pub mod ways;
