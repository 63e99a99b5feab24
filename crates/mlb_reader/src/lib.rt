// Reading projects: ML Basis files and the sources that they name.
#![tactic(auto)]

pub mod basis;
mod counts;
mod fault;
pub mod law;
pub mod load;
pub mod mlb;
pub mod path;
pub mod project;
pub mod refused;
pub mod source;
mod tops;
