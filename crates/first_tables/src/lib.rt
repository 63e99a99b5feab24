// What the code's trees without function values stand on: operations, tests, callees and pieces, and the tables that they name by number.
#![tactic(auto)]

pub use first_values;

pub mod operation;
pub mod tables;
