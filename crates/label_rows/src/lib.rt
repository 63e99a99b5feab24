// Fields in the order of their labels.
#![tactic(auto)]

pub use mlc_names;

pub mod sort;
