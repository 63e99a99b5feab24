// Types of a program with closed types put for their variables, in a table of closed types.
#![tactic(auto)]

pub mod close;
pub mod step;
