// Specifications without signatures in them, from tokens.
#![tactic(auto)]

pub mod descs;
pub mod forms;
pub mod ids;
pub mod lists;
