// What the forms without function values share: values, equality, and what is done with them at once. Definitions, and laws of them.
#![tactic(auto)]

pub use ir_values;
pub use ir_values::{mlc_prims, mlc_runs};

pub mod law;
