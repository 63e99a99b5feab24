// Which functions come to which places of a program with simple types: at each place all functions of its type.
#![tactic(auto)]

pub mod flow;
mod kinds;
mod sets;
