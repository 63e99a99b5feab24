// Which of the datatypes that are declared together admit equality.
#![tactic(auto)]

pub mod argument;
pub mod equality;
pub mod fall;
pub mod graph;
