// What a project elaborates to, with types: a relation, and that it gives all that is claimed of elaboration.
#![tactic(auto)]

pub mod law;
