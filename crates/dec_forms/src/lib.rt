// Declarations, each from its parts, one after the other, and what they bring into scope.
#![tactic(auto)]

pub use exp_forms;
pub use exp_forms::{pat_elab, use_elab};

pub mod argument;
pub mod bindings;
pub mod binds;
pub mod block;
pub mod bring;
pub mod brought;
pub mod declare_exceptions;
pub mod declare_types;
pub mod declare_values;
pub mod exns;
pub mod law;
pub mod local;
pub mod made;
pub mod once;
pub mod sequence_law;
pub mod values;
