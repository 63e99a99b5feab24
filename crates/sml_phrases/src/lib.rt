// Phrases of the core from tokens.
#![tactic(auto)]

mod atoms;
pub mod bindings;
pub mod declarations;
pub mod expressions;
mod headings;
mod heads;
pub mod nodes;
mod patterns;
mod simple_decs;
mod ties;
pub mod types;
mod vids;
