// What is a function by itself becomes a `fn`.
#![tactic(auto)]

pub mod law;
