// What declarations elaborate to, with types: a relation, and that it gives all that is claimed of elaboration.
#![tactic(auto)]

pub use core_elab;

pub mod law;
