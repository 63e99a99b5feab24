// Programs with simple types as programs without function values.
#![tactic(auto)]

pub use closure_bodies::flow_types;

pub mod above;
pub mod codes;
pub mod functions;
pub mod held;
pub mod program;
pub mod reading;
pub mod shapes;
pub mod texts;
pub mod whole;
