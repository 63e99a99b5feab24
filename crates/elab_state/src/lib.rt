// The state of elaboration: what variables stand for, the types that the tree writes, and the program's tables.
#![tactic(auto)]

pub use ty_instance;

pub mod law;
pub mod naming;
pub mod start;
pub mod state;
pub mod variables;
pub mod write;
