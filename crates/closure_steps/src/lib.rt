// Steps that hold expressions which are converted already, and what comes into scope with them.
#![tactic(auto)]

pub use closure_parts;
pub use closure_parts::{capture_table, flow_types};

pub mod cases;
pub mod scope;
pub mod steps;
