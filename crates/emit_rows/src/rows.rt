// Which shape the code of each primitive has.

ghost use Rattle.std.specs.Prelude.{◌≡◌};
ghost use Rattle.first_tables.specs.TablesOf.{operands_of};
ghost use Rattle.machine_rows.specs.Table.{rows, int_row, word_row, char_row, text_row, int_test, word_test, text_test};
ghost use Rattle.emit_rows.specs.Shapes.{code_of, test_code_of};

use crate::shape::{Operation, Shape, TestShape};
use first_tables::operation::Operands;
use mlc_prims::basis::BasisPrimitive;
use mlc_prims::prim::PrimExn;

/// The shape of a primitive's code at these operands.
pub fn row_shape(operands: Operands, primitive: BasisPrimitive) -> Shape
    ensures { code_of result ≡ rows.code (operands_of operands) primitive }
{
    match operands {
        Operands::Ints => int_shape(primitive),
        Operands::Words => word_shape(primitive),
        Operands::Chars => char_shape(primitive),
        Operands::Texts => text_shape(primitive),
    }
}

/// The shape of its code as a test.
pub fn test_shape(operands: Operands, primitive: BasisPrimitive) -> TestShape
    ensures { test_code_of result ≡ rows.test_code (operands_of operands) primitive }
{
    match operands {
        Operands::Ints => int_test_shape(primitive),
        Operands::Words | Operands::Chars => word_test_shape(primitive),
        Operands::Texts => text_test_shape(primitive),
    }
}

fn int_shape(primitive: BasisPrimitive) -> Shape
    ensures { code_of result ≡ (int_row primitive).code }
{
    match primitive {
        BasisPrimitive::Add => Shape::Partial(Operation::Add),
        BasisPrimitive::Subtract => Shape::Partial(Operation::Sub),
        BasisPrimitive::Multiply => Shape::Partial(Operation::Mul),
        BasisPrimitive::Divide => Shape::Divided(Operation::IDiv),
        BasisPrimitive::Modulo => Shape::Partial(Operation::IMod),
        BasisPrimitive::Quotient => Shape::Divided(Operation::IQuot),
        BasisPrimitive::Remainder => Shape::Partial(Operation::IRem),
        BasisPrimitive::Negate => Shape::Negated,
        BasisPrimitive::Absolute => Shape::Magnitude,
        BasisPrimitive::Less => Shape::Total(Operation::ILt),
        BasisPrimitive::LessEqual => Shape::Contrary(Operation::SwappedILt),
        BasisPrimitive::Greater => Shape::Total(Operation::SwappedILt),
        BasisPrimitive::GreaterEqual => Shape::Contrary(Operation::ILt),
        BasisPrimitive::Equals => Shape::Total(Operation::Eq),
        BasisPrimitive::FromInt => Shape::Moved,
        BasisPrimitive::CharOf => Shape::Limited(PrimExn::Chr, 256),
        BasisPrimitive::TextOf => Shape::TextOfInt,
        _ => Shape::Nothing,
    }
}

fn word_shape(primitive: BasisPrimitive) -> Shape
    ensures { code_of result ≡ (word_row primitive).code }
{
    match primitive {
        BasisPrimitive::Add => Shape::Total(Operation::WAdd),
        BasisPrimitive::Subtract => Shape::Total(Operation::WSub),
        BasisPrimitive::Multiply => Shape::Total(Operation::WMul),
        BasisPrimitive::Divide => Shape::Partial(Operation::WDiv),
        BasisPrimitive::Modulo => Shape::Partial(Operation::WMod),
        BasisPrimitive::Negate => Shape::FromWord(0, Operation::WSub),
        BasisPrimitive::Less => Shape::Total(Operation::ULt),
        BasisPrimitive::LessEqual => Shape::Contrary(Operation::SwappedULt),
        BasisPrimitive::Greater => Shape::Total(Operation::SwappedULt),
        BasisPrimitive::GreaterEqual => Shape::Contrary(Operation::ULt),
        BasisPrimitive::Equals => Shape::Total(Operation::Eq),
        BasisPrimitive::BitsAnd => Shape::Total(Operation::And),
        BasisPrimitive::BitsOr => Shape::Total(Operation::Or),
        BasisPrimitive::BitsXor => Shape::Total(Operation::Xor),
        BasisPrimitive::BitsNot => Shape::FromWord(4294967295, Operation::WSub),
        BasisPrimitive::ShiftLeft => Shape::Total(Operation::Shl),
        BasisPrimitive::ShiftRight => Shape::Total(Operation::Shr),
        BasisPrimitive::ShiftSigned => Shape::Total(Operation::Sar),
        BasisPrimitive::ToInt => Shape::Limited(PrimExn::Overflow, 2147483648),
        BasisPrimitive::ToIntSigned => Shape::Moved,
        _ => Shape::Nothing,
    }
}

fn char_shape(primitive: BasisPrimitive) -> Shape
    ensures { code_of result ≡ (char_row primitive).code }
{
    match primitive {
        BasisPrimitive::Less => Shape::Total(Operation::ULt),
        BasisPrimitive::LessEqual => Shape::Contrary(Operation::SwappedULt),
        BasisPrimitive::Greater => Shape::Total(Operation::SwappedULt),
        BasisPrimitive::GreaterEqual => Shape::Contrary(Operation::ULt),
        BasisPrimitive::Equals => Shape::Total(Operation::Eq),
        BasisPrimitive::CharCode => Shape::Moved,
        BasisPrimitive::StringOf => Shape::TextOfOne,
        _ => Shape::Nothing,
    }
}

fn text_shape(primitive: BasisPrimitive) -> Shape
    ensures { code_of result ≡ (text_row primitive).code }
{
    match primitive {
        BasisPrimitive::Less => Shape::Against(0, Operation::SCmp, Operation::Eq),
        BasisPrimitive::LessEqual => {
            Shape::Against(0, Operation::SwappedSCmp, Operation::SwappedULt)
        }
        BasisPrimitive::Greater => Shape::Against(0, Operation::SwappedSCmp, Operation::Eq),
        BasisPrimitive::GreaterEqual => {
            Shape::Against(0, Operation::SCmp, Operation::SwappedULt)
        }
        BasisPrimitive::Equals => Shape::Against(1, Operation::SCmp, Operation::Eq),
        BasisPrimitive::SizeOf => Shape::Loaded,
        BasisPrimitive::CharAt => Shape::ByteOf,
        BasisPrimitive::PartOf => Shape::PartOf,
        BasisPrimitive::Concat => Shape::JoinOf,
        _ => Shape::Nothing,
    }
}

fn int_test_shape(primitive: BasisPrimitive) -> TestShape
    ensures { test_code_of result ≡ (int_test primitive).code }
{
    match primitive {
        BasisPrimitive::Less => TestShape::Holds(Operation::ILt),
        BasisPrimitive::LessEqual => TestShape::Fails(Operation::SwappedILt),
        BasisPrimitive::Greater => TestShape::Holds(Operation::SwappedILt),
        BasisPrimitive::GreaterEqual => TestShape::Fails(Operation::ILt),
        BasisPrimitive::Equals => TestShape::Holds(Operation::Eq),
        _ => TestShape::Nothing,
    }
}

fn word_test_shape(primitive: BasisPrimitive) -> TestShape
    ensures { test_code_of result ≡ (word_test primitive).code }
{
    match primitive {
        BasisPrimitive::Less => TestShape::Holds(Operation::ULt),
        BasisPrimitive::LessEqual => TestShape::Fails(Operation::SwappedULt),
        BasisPrimitive::Greater => TestShape::Holds(Operation::SwappedULt),
        BasisPrimitive::GreaterEqual => TestShape::Fails(Operation::ULt),
        BasisPrimitive::Equals => TestShape::Holds(Operation::Eq),
        _ => TestShape::Nothing,
    }
}

fn text_test_shape(primitive: BasisPrimitive) -> TestShape
    ensures { test_code_of result ≡ (text_test primitive).code }
{
    match primitive {
        BasisPrimitive::Less => TestShape::Fails(Operation::SCmp),
        BasisPrimitive::LessEqual => TestShape::Holds(Operation::SwappedSCmp),
        BasisPrimitive::Greater => TestShape::Fails(Operation::SwappedSCmp),
        BasisPrimitive::GreaterEqual => TestShape::Holds(Operation::SCmp),
        BasisPrimitive::Equals => TestShape::AreSame,
        _ => TestShape::Nothing,
    }
}
