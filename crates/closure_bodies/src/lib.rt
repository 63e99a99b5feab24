// Expressions of a program with simple types as expressions without function values.
#![tactic(auto)]

pub use closure_steps;
pub use closure_steps::{capture_table, closure_parts, flow_types};

pub mod convert;
