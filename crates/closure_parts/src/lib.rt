// Steps of single operations, with closures as cells.
#![tactic(auto)]

pub use capture_table;
pub use flow_types;

pub mod access;
pub mod making;
mod names;
pub mod operands;
pub mod operation;
pub mod places;
pub mod setting;
pub mod tags;
