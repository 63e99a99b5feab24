// Runs in which every meaning is written, and what a form of programs and a pass are.
#![tactic(auto)]

pub use mlc_names;

pub mod law;
pub mod pass;
