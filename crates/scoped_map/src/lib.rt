// Numbers with values, in scopes that are left again.
#![tactic(auto)]

pub mod scoped;
