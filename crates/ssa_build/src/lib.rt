// The pass from the form without function values to SSA. Definitions, and laws of them.
#![tactic(auto)]

pub mod law;
