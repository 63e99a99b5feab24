// The closed types that copies want, entered in a table.
#![tactic(auto)]

pub use mono_state;

pub mod constructors;
pub mod law;
pub mod steps;
pub mod walk;
