// The code of a body in SSA form: a walk over its tree.
#![tactic(auto)]

pub use emit_parts;

pub mod body;
