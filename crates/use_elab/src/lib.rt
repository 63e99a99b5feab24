// Identifiers in expressions.
#![tactic(auto)]

pub mod finish;
pub mod fresh;
pub mod general;
pub mod given;
pub mod put;
pub mod typed;
pub mod used;
pub mod writing;
