// Copies that take no turns.
#![tactic(auto)]

pub mod law;
