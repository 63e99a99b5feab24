// What copies need, kept by the scopes that it is needed of.
#![tactic(auto)]

pub mod law;
