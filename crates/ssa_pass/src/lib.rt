// The pass from the form without function values to SSA.
#![tactic(auto)]

pub mod build;
pub mod parts;
pub mod pass;
