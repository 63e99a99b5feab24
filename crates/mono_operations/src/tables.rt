// The tables of a program.
use mlc_names::names::Name;
use mono_uses::mono_types::types::Types;

/// What a program of simple types names by number: closed types, and strings; the identifiers of the exceptions of the initial basis; and the number of the
/// type of exceptions.
#[derive(Drop)]
pub struct Tables {
    pub types: Types,
    pub initial: Vec<Name>,
    pub strings: Vec<Vec<u8>>,
    pub exn: usize,
}
