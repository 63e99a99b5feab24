// The context of the initial basis.
#![tactic(auto)]

pub mod basis;
pub mod rows;
pub mod tables;
