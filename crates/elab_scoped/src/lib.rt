// What elaborates has its type variables in scope.
#![tactic(auto)]

pub mod law;
