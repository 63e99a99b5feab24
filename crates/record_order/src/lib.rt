// Which record types have labels that ascend, and their fields, found by halves.
#![tactic(auto)]

pub use ir_uses;

pub mod facts;
pub mod fields;
pub mod orders;
