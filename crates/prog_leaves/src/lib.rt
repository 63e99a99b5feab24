// What a walk over expressions and declarations asks at its leaves, and the scopes that it goes into.
#![tactic(auto)]

pub use prog_pats;
pub use prog_pats::{ir_uses, prog_binds, record_order};

pub mod atoms;
pub mod bounds;
pub mod exceptions;
pub mod functions;
pub mod rows;
pub mod scopes;
pub mod types;
