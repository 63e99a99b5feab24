// What is in scope while declarations are elaborated.
#![tactic(auto)]

pub use elab_steps;
pub use elab_steps::elab_state;

pub mod context;
pub mod entry;
pub mod instance;
pub mod schemes;
