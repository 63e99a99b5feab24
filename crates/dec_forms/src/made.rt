// Exceptions while they are made.

use exp_forms::elab_context::entry::Entry;
use prog_tree::tree::Dec;
use sml_tree::ident::Vid;

/// The type of an argument, and the number under which the tree writes it; none where there is no argument.
#[derive(Clone, Copy)]
pub struct Argument {
    pub ty: Option<usize>,
    pub written: Option<usize>,
}

/// The program's declarations of those that are new, and what each identifier is.
#[derive(Drop)]
pub struct ExnsMade {
    pub decs: Vec<Dec>,
    pub values: Vec<(Vid, Entry)>,
}
