// Whether expressions and declarations are well typed.
#![tactic(auto)]

pub use prog_leaves::{ir_uses, record_order};

pub mod exps;
