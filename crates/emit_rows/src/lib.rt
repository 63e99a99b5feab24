// The code of primitives, computed: how many instructions each has, and which.
#![tactic(auto)]

pub use machine_rows;

pub mod push;
pub mod row;
pub mod rows;
pub mod shape;
pub mod sizes;
