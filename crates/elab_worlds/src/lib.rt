// Worlds in which what a state of the elaborator says comes true.
#![tactic(auto)]

pub mod law;
pub mod ordered;
