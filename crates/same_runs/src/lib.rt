// When a meaning, by turns, and the runs of a machine, by steps, end alike. Definitions, and a law of them.
#![tactic(auto)]

pub mod law;
