// The names of datatypes, and the arguments of their constructors.

use elab_types::scope::TypeEntry;
use mlc_names::names::Name;
use ty_core::name::TyName;

/// Type constructors with the type functions of type names, and the arguments of each one's constructors.
#[derive(Drop)]
pub struct Arguments {
    pub entries: Vec<(Name, TypeEntry)>,
    pub rows: Vec<Vec<Option<usize>>>,
}

/// The names of datatypes, and the arguments of their constructors.
#[derive(Drop)]
pub struct Datatypes {
    pub names: Vec<TyName>,
    pub arguments: Arguments,
}
