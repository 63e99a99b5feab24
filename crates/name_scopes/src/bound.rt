// What is bound.

use mlc_names::names::Name;
use sml_tree::ident::Vid;

/// The structures of the standard basis.
#[derive(Clone, Copy)]
pub enum Members {
    Integers,
    Hidden,
}

/// Something that is bound.
#[derive(Clone, Copy)]
pub enum Bound {
    /// A value identifier, and whether it is a variable: no constructor and no exception.
    Value(Vid, bool),
    /// A type constructor. So many that were bound just before it are its constructors.
    Tycon(Name, usize),
    Structure(Name, Members),
}
