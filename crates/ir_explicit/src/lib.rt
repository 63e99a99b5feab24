// Programs in which only `fn` and groups are functions.
#![tactic(auto)]

pub use ir_mono;
pub use ir_mono::ir_poly;

pub mod law;
