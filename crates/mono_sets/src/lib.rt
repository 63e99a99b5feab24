// Lists of numbers, each number once, of which the last one can be taken away.
#![tactic(auto)]

pub mod sets;
