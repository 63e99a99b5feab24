// What identifiers are.

/// What an identifier of a value is.
#[derive(Clone, Copy, PartialEq, Eq, Debug)]
pub enum Status {
    Variable,
    Constructor,
    Exception,
    /// A primitive, by its number.
    Primitive(u32),
}
