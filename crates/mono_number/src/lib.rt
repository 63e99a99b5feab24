// Variables of copies as numbers.
#![tactic(auto)]

pub mod apart;
pub mod law;
pub mod steps;
pub mod tree;
pub mod walk;
pub mod words;
