// What types begin with, type names, and what is asked of type variables.
#![tactic(auto)]

pub use mlc_names;

pub mod env;
pub mod law;
pub mod mark;
pub mod name;
pub mod scheme;
pub mod ty;
