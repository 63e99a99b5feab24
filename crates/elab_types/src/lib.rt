// The types that are written in a program, as numbers.
#![tactic(auto)]

pub use ty_instance::ty_solve;

pub mod annotation;
pub mod build;
pub mod refused;
pub mod scope;
pub mod whole;
