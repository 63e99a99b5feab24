// Declarations of datatypes, whole.
#![tactic(auto)]

pub mod constructors;
pub mod declare;
pub mod of;
pub mod rows;
