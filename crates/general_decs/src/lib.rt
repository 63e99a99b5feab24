// `val` declarations that generalise, each from its parts.
#![tactic(auto)]

pub use general_vals::general_worlds;
pub use rec_groups;

pub mod add;
pub mod begin;
pub mod finish;
pub mod lower;
pub mod outside;
pub mod settle;
pub mod values;
