// The first inner form, with explicit instances: with source matches, and in plain evaluation order. Definitions, and laws of them.
#![tactic(auto)]

pub use ir_plain;
pub use ir_plain::ir_values;
pub use label_rows::mlc_names;
pub use ty_basis::{mlc_prims, ty_core};

pub mod law;
