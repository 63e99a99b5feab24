// The trees of programs with modules, as code has them.
#![tactic(auto)]

pub mod nodes;
pub mod signatures;
pub mod sources;
pub mod structures;
