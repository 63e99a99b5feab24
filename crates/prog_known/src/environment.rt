// What is in scope.
ghost use Rattle.std.specs.Prelude.{◌≡◌, []};

use crate::variables::Variables;
use ir_known::stack::Stack;
use std::alloc::Global;
use ty_core::mark::Mark;

/// Parameters with their marks, and variables.
#[derive(Drop)]
pub struct Environment {
    pub parameters: Stack<Mark>,
    pub variables: Variables,
}

impl Environment {
    /// Nothing.
    pub fn new(alloc: Global) -> Environment
        ensures parameters { result.parameters ≡ [] }
        ensures variables { result.variables ≡ [] }
    {
        Environment {
            parameters: Stack::new(alloc),
            variables: Variables::new(alloc),
        }
    }
}
