// Whether patterns are well typed.
#![tactic(auto)]

pub use prog_parts::prog_binds;
pub use record_order;
pub use record_order::ir_uses;

pub mod exceptions;
pub mod heads;
pub mod pats;
pub mod records;
