// The plain-order tree with simple types, and that a well formed program never goes wrong. Definitions, and laws of them.
#![tactic(auto)]

pub use ir_poly;
pub use ir_poly::{ir_plain, ir_values};

pub mod law;
