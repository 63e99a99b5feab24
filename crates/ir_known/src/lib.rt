// What a checker knows: of the variables in scope, of parameters in scope, and of types.
#![tactic(auto)]

pub use ir_tables;

pub mod ask;
pub mod image;
pub mod known;
pub mod params;
pub mod scope;
pub mod stack;
pub mod walk;
