// How large the conversion of functions to cells is.
#![tactic(auto)]

pub mod law;
