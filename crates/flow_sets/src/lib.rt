// Which functions come to which places of a program: definitions, and that the sets by type are a solution.
#![tactic(auto)]

pub use ir_mono;
pub use ir_mono::ir_plain;

pub mod law;
