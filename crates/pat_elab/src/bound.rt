// What patterns come to.

use prog_tree::tree::Pat;
use sml_tree::ident::Vid;

/// An identifier that a pattern binds, with its variable in the program and its type.
#[derive(Clone, Copy)]
pub struct BoundVariable {
    pub vid: Vid,
    pub number: usize,
    pub ty: usize,
}

/// A pattern of the program, and the type of what it is matched with.
#[derive(Drop)]
pub struct TypedPat {
    pub pat: Pat,
    pub ty: usize,
}
