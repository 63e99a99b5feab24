// The routine of equality, computed.
#![tactic(auto)]

pub use emit_code;

pub mod equality;
