// Variables of types that stand for nothing yet.
#![tactic(auto)]

pub mod done;
