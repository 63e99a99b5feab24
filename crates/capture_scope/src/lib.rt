// Where the body of a function finds its variables, what a function in it captures, and of which pieces that is made.
#![tactic(auto)]

pub mod piece;
pub mod scope;
