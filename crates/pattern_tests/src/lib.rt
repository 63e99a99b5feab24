// From patterns to tests: the steps that test a value against a pattern, and where the pattern's variables are.
#![tactic(auto)]

pub use match_steps;
pub use match_steps::match_types;

pub mod made;
pub mod parts;
pub mod patterns;
pub mod spots;
