// The types of the initial basis: its type names, and the types of primitives. Definitions, and laws of them.
#![tactic(auto)]

pub use mlc_prims;
pub use ty_core;

pub mod law;
