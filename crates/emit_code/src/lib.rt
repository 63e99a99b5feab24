// The code of operations, tests, cells, moves and choices, computed.
#![tactic(auto)]

pub use emit_rows;
pub use emit_rows::machine_rows;

pub mod cell;
pub mod choice;
pub mod fault;
pub mod moves;
pub mod places;
pub mod plain;
pub mod put;
