// The code's tree of a program without function values.
#![tactic(auto)]

pub mod tree;
