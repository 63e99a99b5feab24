// Identifiers that aren't bound where they stand, or that are bound twice.
#![tactic(auto)]

pub mod basis;
pub mod bound;
pub mod datas;
pub mod held;
pub mod look_ups;
pub mod pats;
pub mod rows;
pub mod scope;
pub mod sought;
pub mod twice;
pub mod tys;
pub mod vids;
