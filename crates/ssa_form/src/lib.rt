// Programs in SSA form, and the checker of them.
#![tactic(auto)]

pub mod form;
pub mod labels;
pub mod scoped;
