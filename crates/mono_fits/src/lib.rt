// What a checker of simple types asks, as decisions, and that these are the typing. Definitions, and laws of them.
#![tactic(auto)]

pub use prog_check;

pub mod law;
