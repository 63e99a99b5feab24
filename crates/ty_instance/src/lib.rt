// Types with other types put for their variables: instances of schemes, and types under a substitution.
#![tactic(auto)]

pub use ty_solve;

pub mod fresh;
pub mod instantiate;
mod made;
pub mod put;
pub mod resolve;
pub mod step;
pub mod within;
