// Programs of tests written in words, for tests of what checks them.
#![tactic(auto)]

pub mod words;
