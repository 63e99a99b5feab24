// Primitives that compile today, and the exceptions that primitives raise.

/// A primitive of the small language that compiles today.
#[derive(Clone, Copy, PartialEq, Eq, Debug)]
pub enum Primitive {
    /// `+`
    Add,
    /// `-`
    Sub,
    /// `*`
    Mul,
    /// `^`
    Cat,
    /// `print`
    Print,
}

/// An exception that a primitive raises.
#[derive(Clone, Copy, PartialEq, Eq, Debug)]
pub enum PrimExn {
    Overflow,
    Div,
    Subscript,
    Size,
    Chr,
}
