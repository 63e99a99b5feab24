// Files, codes, and the line of a refusal.
#![tactic(auto)]

pub mod code;
pub mod fault;
pub mod files;
pub mod refused;
