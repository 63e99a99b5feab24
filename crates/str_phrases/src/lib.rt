// Structures and their declarations, from tokens.
#![tactic(auto)]

pub mod decs;
pub mod plain;
pub mod reader;
pub mod seals;
pub mod starts;
pub mod structures;
