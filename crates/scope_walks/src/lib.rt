// Identifiers that aren't bound, or are bound twice, in expressions and declarations, and in a project.
#![tactic(auto)]

pub mod exps;
pub mod law;
pub mod project;
pub mod vals;
