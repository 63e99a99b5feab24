// Values that primitives take and give.

/// A value that is no record, constructor or function.
#[derive(Debug, Drop)]
pub enum Lit {
    Int(i32),
    Word(u32),
    Char(u8),
    Str(Vec<u8>),
    Truth(bool),
}
