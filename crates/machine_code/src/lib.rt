// The code of images as a function on programs in SSA form, and that it does what the program does. Definitions, and laws of them.
#![tactic(auto)]

pub use ir_ssa;
pub use machine_routines;

pub mod law;
