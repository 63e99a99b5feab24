// Steps of the elaborator on its state.
#![tactic(auto)]

pub use elab_state;
pub use elab_types;

pub mod annotate;
pub mod flexible;
pub mod instance;
pub mod rows;
pub mod step;
