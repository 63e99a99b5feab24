// Forms while their parts are made.

use label_rows::sort::Field;
use mlc_names::label::Label;
use prog_tree::tree::Exp;

/// A function, its arguments so far, each with the type of the application to it, and the type of the whole.
#[derive(Drop)]
pub struct Called {
    pub function: Box<Exp>,
    pub arguments: Vec<(usize, Exp)>,
    pub ty: usize,
}

/// Fields of a record, and the types of their labels.
#[derive(Drop)]
pub struct FieldsMade {
    pub exps: Vec<(Label, Exp)>,
    pub row: Vec<Field>,
}
