// Signatures and specifications, from tokens.
#![tactic(auto)]

pub mod includes;
pub mod plain;
pub mod signatures;
pub mod wheres;
pub mod words;
