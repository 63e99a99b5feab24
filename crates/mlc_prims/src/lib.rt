// The primitives of the language: their numbers, and what each gives.
#![tactic(auto)]

pub use word_arithmetic;

pub mod applied;
pub mod apply;
pub mod args;
pub mod basis;
mod compare;
pub mod law;
pub mod lit;
mod numbers;
pub mod prim;
mod strings;
mod words;
