// Types as numbers in a table that has each once.
#![tactic(auto)]

pub use ty_core;
pub use ty_core::mlc_names;

mod code;
mod facts;
mod table;
pub mod types;
pub mod variables;
