// From bare declarations to a program with explicit instances: the relation that elaboration keeps, and that what it relates means the same.
#![tactic(auto)]

pub use core_rules::{sml_tree, ty_basis};
pub use ir_poly::ir_values;

pub mod law;
