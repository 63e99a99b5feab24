// What is done with values at once, as the code has it.

use first_values::mlc_prims::basis::BasisPrimitive;
use mlc_names::names::Name;

/// A constant. A string is that of its number in the tables.
#[derive(Clone, Copy)]
pub enum Constant {
    Int(i32),
    Word(u32),
    Char(u8),
    Text(usize),
    Truth(bool),
}

/// What the first operand of a primitive is.
#[derive(Clone, Copy)]
pub enum Operands {
    Ints,
    Words,
    Chars,
    Texts,
}

/// An operation with one way on.
#[derive(Clone, Copy)]
pub enum Plain {
    Same,
    Constant(Constant),
    Field(usize),
    Refer,
    Content,
    Assign,
    /// A new exception, with its identifier.
    Exception(Name),
    /// The name of an exception of the initial basis.
    Initial(usize),
    Pack,
    Argument,
    Compute(Operands, BasisPrimitive),
    /// Equality at a type.
    Equal(usize),
    Print,
}

#[derive(Clone, Copy)]
pub enum Test {
    Is(Constant),
    IsOf,
    Holds(Operands, BasisPrimitive),
}

/// A function, or the one of a closure, which is of this set.
#[derive(Clone, Copy)]
pub enum Callee {
    Known(usize),
    OneOf { set: usize, closure: usize },
}

/// What a cell is made of: a value, or so many parts of another cell.
#[derive(Clone, Copy)]
pub enum Piece {
    One(usize),
    Run {
        cell: usize,
        from: usize,
        count: usize,
    },
}
