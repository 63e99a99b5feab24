// What the programs of the inner forms stand on: types, constructors, parameters, strings and exceptions of the initial basis.
#![tactic(auto)]

pub use ir_poly::mlc_prims;
pub use ty_table;
pub use ty_table::ty_core;

pub mod constructors;
pub mod tables;
