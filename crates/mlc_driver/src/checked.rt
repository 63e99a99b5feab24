// A checked project.

use project_elab::ir_prog::program::Program;

/// The program of a project that was elaborated, and how many names are known to be held.
#[derive(Drop)]
pub struct Checked {
    pub program: Program,
    pub known: u32,
}
