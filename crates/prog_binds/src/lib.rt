// Puts the variables of patterns, bindings and groups of functions in scope.
#![tactic(auto)]

pub mod groups;
pub mod one;
pub mod pats;
