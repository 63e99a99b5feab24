// From programs with source matches to programs of tests: what doesn't recurse, the recursion, and the pass.
#![tactic(auto)]

pub use ir_prog;

pub mod chains;
pub mod choices;
pub mod compile;
pub mod exps;
pub mod groups;
pub mod heads;
pub mod matches;
pub mod pass;
pub mod shapes;
pub mod tables;
