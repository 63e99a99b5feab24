// The exceptions that end a program in SSA form are its own.
#![tactic(auto)]

pub mod law;
