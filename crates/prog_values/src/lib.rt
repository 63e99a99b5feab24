// Which expressions are values.
#![tactic(auto)]

pub mod values;
