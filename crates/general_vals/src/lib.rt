// `val` declarations whose bindings are generalised.
#![tactic(auto)]

pub use general_worlds;

pub mod close;
pub mod enter;
pub mod law;
pub mod settle;
