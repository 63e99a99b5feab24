// The SSA form: functions of blocks with arguments. Definitions, and laws of them.
#![tactic(auto)]

pub use first_values::ir_values;

pub mod law;
