// The end of elaboration: a program whose types are of its own table, and that is right.
#![tactic(auto)]

pub use basis_context;
pub use final_types;

pub mod elaborated;
pub mod law;
