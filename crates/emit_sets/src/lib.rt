// The routines of sets of closures, computed.
#![tactic(auto)]

pub mod sets;
