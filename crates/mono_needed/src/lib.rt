// The types that equality needs, counted.
#![tactic(auto)]

pub mod chains;
pub mod count;
pub mod law;
mod marks;
mod open;
