// The pass from programs of tests to programs with simple types.
#![tactic(auto)]

pub use mono_form;
pub use mono_form::mono_operations;

pub mod first;
pub mod make;
pub mod pass;
