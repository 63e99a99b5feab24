// The parser of programs with modules.
#![tactic(auto)]

pub mod core_parser;
pub mod read;
