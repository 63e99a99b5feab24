// Programs with source matches written in words, for tests of what checks them.
#![tactic(auto)]

pub mod expressions;
pub mod make;
pub mod patterns;
pub mod text;
