// The conversion of functions to cells keeps what a program does.
#![tactic(auto)]

pub mod law;
