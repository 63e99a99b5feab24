// Names and the standard words, labels, tokens.
#![tactic(auto)]

pub mod label;
pub mod names;
pub mod token;
pub mod words;
