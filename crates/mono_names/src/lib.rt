// Lists of types, and copies of bindings at them, each once and by number.
#![tactic(auto)]

pub mod copies;
pub mod law;
pub mod lists;
