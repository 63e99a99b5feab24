// The numbers that the source's variables get.
#![tactic(auto)]

pub mod names;
