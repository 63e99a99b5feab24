// What steps are made with: new numbers, and types over the parameters in scope.
#![tactic(auto)]

pub mod types;
pub mod work;
