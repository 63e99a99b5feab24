// What a checker of programs with source matches knows.
#![tactic(auto)]

pub mod answers;
pub mod environment;
pub mod manner;
pub mod variables;
