// The tokens of a source.
#![tactic(auto)]

mod chars;
mod comments;
mod identifiers;
mod item;
mod items;
pub mod lex;
mod numbers;
mod reserved;
mod strings;
