// The plain-order tree of the code.
#![tactic(auto)]

pub mod binders;
pub mod nodes;
pub mod once;
pub mod tree;
