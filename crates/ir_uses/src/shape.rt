// The types of primitives.
ghost use Rattle.std.specs.Prelude.{◌≡◌};
ghost use Rattle.ir_known.specs.of_ir_poly.Types.{prim_type};
ghost use Rattle.ty_basis.specs.Primitives.{one_to_one, two_to_one};
ghost use Rattle.ir_uses.specs.Shapes.{prim_type_of, shape_type};

use ir_known::ask::BOOL;
use mlc_prims::basis::BasisPrimitive;
use ty_core::mark::{Class, Mark};
use ty_core::name::TyName;

/// A type over one parameter: the parameter, a reference to it, a type name with no arguments, or unit.
#[derive(Clone, Copy)]
pub enum Shape {
    Parameter,
    Reference,
    Named(TyName),
    Unit,
}

#[derive(Clone, Copy)]
pub enum Arguments {
    One(Shape),
    Two(Shape, Shape),
    Three(Shape, Shape, Shape),
}

/// What a primitive asks of its parameter, takes and gives.
#[derive(Clone, Copy)]
pub struct Signature {
    pub mark: Mark,
    pub arguments: Arguments,
    pub result: Shape,
}

const INT: Shape = Shape::Named(TyName::INT);

const WORD: Shape = Shape::Named(TyName::WORD);

const CHAR: Shape = Shape::Named(TyName::CHAR);

const STRING: Shape = Shape::Named(TyName::STRING);

const NUMBERS: Mark = Mark::Class(Class {
    int: true,
    word: true,
    char: false,
    string: false,
});

const ORDERED: Mark = Mark::Class(Class {
    int: true,
    word: true,
    char: true,
    string: true,
});

const BINARY: Signature = Signature {
    mark: NUMBERS,
    arguments: Arguments::Two(Shape::Parameter, Shape::Parameter),
    result: Shape::Parameter,
};

const NEGATE: Signature = Signature {
    mark: NUMBERS,
    arguments: Arguments::One(Shape::Parameter),
    result: Shape::Parameter,
};

const COMPARISON: Signature = Signature {
    mark: ORDERED,
    arguments: Arguments::Two(Shape::Parameter, Shape::Parameter),
    result: Shape::Named(BOOL),
};

const EQUALS: Signature = Signature {
    mark: Mark::Equality,
    arguments: Arguments::Two(Shape::Parameter, Shape::Parameter),
    result: Shape::Named(BOOL),
};

const ASSIGN: Signature = Signature {
    mark: Mark::Any,
    arguments: Arguments::Two(Shape::Reference, Shape::Parameter),
    result: Shape::Unit,
};

const PART: Signature = Signature {
    mark: Mark::Any,
    arguments: Arguments::Three(STRING, INT, INT),
    result: STRING,
};

/// A function of one argument, with no parameter.
fn one(argument: Shape, gives: Shape) -> Signature
    ensures { prim_type_of result ≡ one_to_one (shape_type argument) (shape_type gives) }
{
    Signature {
        mark: Mark::Any,
        arguments: Arguments::One(argument),
        result: gives,
    }
}

/// A function of two arguments, with no parameter.
fn two(first: Shape, second: Shape, gives: Shape) -> Signature
    ensures { prim_type_of result ≡ two_to_one (shape_type first) (shape_type second) (shape_type gives) }
{
    Signature {
        mark: Mark::Any,
        arguments: Arguments::Two(first, second),
        result: gives,
    }
}

/// The type of a primitive.
pub fn primitive_type(primitive: BasisPrimitive) -> Signature
    ensures { prim_type_of result ≡ prim_type primitive }
{
    match primitive {
        BasisPrimitive::Add => BINARY,
        BasisPrimitive::Subtract => BINARY,
        BasisPrimitive::Multiply => BINARY,
        BasisPrimitive::Divide => BINARY,
        BasisPrimitive::Modulo => BINARY,
        BasisPrimitive::Negate => NEGATE,
        BasisPrimitive::Absolute => one(INT, INT),
        BasisPrimitive::Less => COMPARISON,
        BasisPrimitive::LessEqual => COMPARISON,
        BasisPrimitive::Greater => COMPARISON,
        BasisPrimitive::GreaterEqual => COMPARISON,
        BasisPrimitive::Equals => EQUALS,
        BasisPrimitive::Assign => ASSIGN,
        BasisPrimitive::Quotient => two(INT, INT, INT),
        BasisPrimitive::Remainder => two(INT, INT, INT),
        BasisPrimitive::BitsAnd => two(WORD, WORD, WORD),
        BasisPrimitive::BitsOr => two(WORD, WORD, WORD),
        BasisPrimitive::BitsXor => two(WORD, WORD, WORD),
        BasisPrimitive::BitsNot => one(WORD, WORD),
        BasisPrimitive::ShiftLeft => two(WORD, WORD, WORD),
        BasisPrimitive::ShiftRight => two(WORD, WORD, WORD),
        BasisPrimitive::ShiftSigned => two(WORD, WORD, WORD),
        BasisPrimitive::ToInt => one(WORD, INT),
        BasisPrimitive::ToIntSigned => one(WORD, INT),
        BasisPrimitive::FromInt => one(INT, WORD),
        BasisPrimitive::CharCode => one(CHAR, INT),
        BasisPrimitive::CharOf => one(INT, CHAR),
        BasisPrimitive::TextOf => one(INT, STRING),
        BasisPrimitive::SizeOf => one(STRING, INT),
        BasisPrimitive::CharAt => two(STRING, INT, CHAR),
        BasisPrimitive::PartOf => PART,
        BasisPrimitive::Concat => two(STRING, STRING, STRING),
        BasisPrimitive::StringOf => one(CHAR, STRING),
        BasisPrimitive::Print => one(STRING, Shape::Unit),
    }
}
