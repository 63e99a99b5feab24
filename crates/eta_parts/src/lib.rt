// Steps that stand for what is a function by itself, and copies of what isn't.
#![tactic(auto)]

pub mod ask;
pub mod copies;
pub mod functions;
pub mod making;
pub mod value;
