// Expressions, whatever their form.
#![tactic(auto)]

pub use general_decs::general_worlds;

pub mod absent;
pub mod exps;
pub mod heads;
pub mod inside;
pub mod made;
pub mod members;
pub mod parameters;
pub mod plain;
pub mod shapes;
