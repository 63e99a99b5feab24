// The tree in which evaluation order is plain, generic in names, types and what values keep of these. Definitions, and laws of them.
#![tactic(auto)]

pub use ir_values;

pub mod law;
