// Tables for tests, whose types have fixed numbers.
#![tactic(auto)]

pub mod given;
