// The words of copies, and what is put for each construct.
#![tactic(auto)]

pub mod law;
