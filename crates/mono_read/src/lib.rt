// Words of programs with simple types, read back into trees.
#![tactic(auto)]

pub use mono_state;
pub use mono_state::mono_words;

pub mod law;
pub mod lists;
pub mod parts;
pub mod read;
pub mod stack;
