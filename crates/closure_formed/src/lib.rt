// What the conversion of functions to cells gives is well formed.
#![tactic(auto)]

pub use closure_whole;

pub mod law;
