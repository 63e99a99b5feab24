// The datatype whose constructors are made.

use ty_core::name::TyName;

/// A datatype's name, and the type of the name at its parameters.
#[derive(Clone, Copy)]
pub struct Datatype {
    pub name: TyName,
    pub ty: usize,
}
