// Functions that are declared together, each from its parts.
#![tactic(auto)]

pub use dec_forms;
pub use dec_forms::{exp_forms, pat_elab, use_elab};

pub mod annotate;
pub mod enter;
pub mod functions;
pub mod head;
pub mod reserve;
