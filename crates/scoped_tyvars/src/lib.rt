// Which type variables a `val` declaration scopes.
#![tactic(auto)]

pub mod exps;
pub mod pats;
pub mod scoped;
pub mod tys;
