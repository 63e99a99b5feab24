// All passes behind elaboration as one call.
#![tactic(auto)]

pub mod compile;
pub mod lower;
pub mod named;
pub mod refused;
