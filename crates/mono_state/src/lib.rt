// Where a walk that copies what is generalised stands, and what it has made.
#![tactic(auto)]

pub use mono_words;

pub mod copier;
pub mod names;
pub mod word;
