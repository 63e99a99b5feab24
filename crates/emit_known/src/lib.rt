// What is known of an image before its code: the texts of its exceptions, its constants, where they and the comparisons of types stand.
#![tactic(auto)]

pub use emit_equality;

pub mod exceptions;
pub mod known;
pub mod texts;
