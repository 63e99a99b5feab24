// Programs of the form without function values, and the checker of them.
#![tactic(auto)]

pub mod form;
pub mod scoped;
pub mod whole;
