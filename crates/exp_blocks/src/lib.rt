// Tests that stand by themselves, functions, and what they bring into scope.
#![tactic(auto)]

pub use exp_steps;

pub mod blocks;
pub mod scopes;
