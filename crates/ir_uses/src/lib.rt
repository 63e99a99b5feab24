// What a checker asks of constants, constructors, uses, primitives, records, exceptions and of the table.
#![tactic(auto)]

pub use ir_known;

pub mod allow;
pub mod constructor;
pub mod exception;
pub mod images;
pub mod literal;
pub mod parts;
pub mod primitive;
pub mod record;
pub mod shape;
pub mod table;
pub mod using;
