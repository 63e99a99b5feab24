// The form without function values: closures are cells, and a call names a set of them or a function. Definitions, and laws of them.
#![tactic(auto)]

pub mod law;
