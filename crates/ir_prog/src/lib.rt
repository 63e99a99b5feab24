// Programs with source matches.
#![tactic(auto)]

pub mod form;
pub mod program;
