// Programs of simple types: the tree of the code with the tables that its numbers stand in.
#![tactic(auto)]

pub mod tree;
