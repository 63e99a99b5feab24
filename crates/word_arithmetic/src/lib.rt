// Arithmetic of integers and of words of 32 bits, as definitions, and the law of division.
#![tactic(auto)]

pub mod law;
