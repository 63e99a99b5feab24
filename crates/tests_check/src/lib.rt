// The checker of programs of tests: one walk along the tree, with what is in scope.
#![tactic(auto)]

pub use record_order;
pub use record_order::ir_uses;

pub mod atom;
pub mod case;
pub mod group;
pub mod infer;
pub mod opening;
pub mod operation;
pub mod step;
pub mod value;
pub mod walk;
