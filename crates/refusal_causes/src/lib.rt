// What is certain of the causes for which a project is refused in elaboration.
#![tactic(auto)]

pub mod certain;
pub mod law;
