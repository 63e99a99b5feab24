// A project: the standard basis with its prelude, then its sources, elaborated one after the other.
#![tactic(auto)]

pub use match_pass::ir_prog;

pub mod project;
pub mod standard;
