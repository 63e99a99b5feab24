// Patterns: the program's patterns, their types, and what they bind. Each form from its parts, and the recursion over all of them.
#![tactic(auto)]

pub use elab_context;
pub use elab_context::{elab_state, elab_steps};

pub mod annotate;
pub mod bound;
pub mod built;
pub mod chain;
pub mod elab;
pub mod fields;
pub mod form;
pub mod headed;
pub mod leaf;
pub mod list;
pub mod matched;
pub mod parts;
pub mod stopped;
