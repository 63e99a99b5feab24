// Whether a program with source matches is well formed, as a function.
#![tactic(auto)]

pub use ir_poly;
pub use ir_poly::ir_values;

pub mod law;
