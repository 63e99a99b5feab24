// Functions while they are made.

use prog_tree::tree::{Function, Parameter};

/// Parameters that came into scope, the last one apart, and the types of all.
#[derive(Drop)]
pub struct Entered {
    pub before: Vec<Parameter>,
    pub last: Parameter,
    pub types: Vec<usize>,
}

/// A function of the program, and its type.
#[derive(Drop)]
pub struct FunctionMade {
    pub function: Function,
    pub ty: usize,
}
