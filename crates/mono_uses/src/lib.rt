// What a checker of simple types asks at the leaves: of names, functions, records, constants, constructors, exceptions and primitives.
#![tactic(auto)]

pub use mono_types;

pub mod ask;
pub mod label;
pub mod node;
pub mod primitive;
