// Closed types, which are placed in a table of simple types after their parts.
#![tactic(auto)]

pub mod node;
pub mod step;
pub mod walk;
