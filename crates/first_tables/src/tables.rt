// The tables of a program.

use mlc_names::names::Name;

/// How the values of a type are compared: a cell by the types of the parts at each tag.
#[derive(Drop)]
pub enum Shape {
    Numbers,
    Texts,
    Cells(Vec<Vec<usize>>),
    References,
    Opaque,
}

/// A closure's tag, and its function.
#[derive(Clone, Copy)]
pub struct Member {
    pub tag: usize,
    pub function: usize,
}

/// What a program has beside its functions: the identifiers of the exceptions of the initial basis, strings, types, sets of closures.
#[derive(Drop)]
pub struct Tables {
    pub initial: Vec<Name>,
    pub strings: Vec<Vec<u8>>,
    pub types: Vec<Shape>,
    pub sets: Vec<Vec<Member>>,
}
