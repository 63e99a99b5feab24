// The pass to simple types: one copy of each generalised binding for each list of types that it is used at. Definitions, and laws of them.
#![tactic(auto)]

pub mod law;
