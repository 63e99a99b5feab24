// What a run of declarations leaves open is closed at its end.
#![tactic(auto)]

pub use dec_forms;

pub mod choose;
pub mod law;
pub mod settled;
