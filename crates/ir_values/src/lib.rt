// What the inner forms share: values, equality, what patterns do with a value, primitives and calls. Definitions, and laws of them.
#![tactic(auto)]

pub use mlc_prims;
pub use mlc_runs;
pub use mlc_runs::mlc_names;

pub mod law;
