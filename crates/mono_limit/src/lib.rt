// How large a program in simple types is, and when there is none. Definitions, and laws of them.
#![tactic(auto)]

pub mod law;
