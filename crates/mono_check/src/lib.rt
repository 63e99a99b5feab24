// The walk of a checker along a program of simple types.
#![tactic(auto)]

pub use mono_operations;

pub mod case;
pub mod group;
pub mod infer;
pub mod opening;
pub mod walk;
