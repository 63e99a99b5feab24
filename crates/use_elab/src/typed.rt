// What expressions come to.

use prog_tree::tree::Exp;

/// An expression of the program, and its type.
#[derive(Drop)]
pub struct TypedExp {
    pub exp: Exp,
    pub ty: usize,
}

/// A type, and the types that stand in it for the parameters of a scheme.
#[derive(Drop)]
pub struct Instance {
    pub images: Vec<usize>,
    pub ty: usize,
}
