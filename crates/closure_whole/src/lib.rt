// From a well formed program with simple types to one without function values.
#![tactic(auto)]

pub mod law;
