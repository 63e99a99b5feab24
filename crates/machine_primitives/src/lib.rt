// The code of the primitives of the initial basis, and that it does what their table says. Definitions, and laws.
#![tactic(auto)]

pub use machine_code;
pub use machine_code::{ir_ssa, machine_routines};

pub mod law;
