// The types of the initial basis as numbers of a table.
#![tactic(auto)]

pub mod row;
pub mod schemes;
pub mod shapes;
