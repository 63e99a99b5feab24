// The code's tree of a program in SSA form.
#![tactic(auto)]

pub mod tree;
