// Types over parameters of their own.
#![tactic(auto)]

pub use elab_steps;
pub use elab_steps::elab_state;

pub mod annotate;
pub mod parameters;
