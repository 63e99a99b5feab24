// The parts of a walk over bodies: labels, the scopes of variables, calls, tests and choices.
#![tactic(auto)]

pub mod fault;
pub mod parts;
pub mod pass;
pub mod search;
