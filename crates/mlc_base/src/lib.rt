// What every layer of the compiler speaks of: places, want of memory, values of owned parts.
#![tactic(auto)]

pub mod make;
pub mod memory;
pub mod place;
