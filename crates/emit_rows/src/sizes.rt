// How many instructions a primitive has.

ghost use Rattle.std.specs.Prelude.{◌≡◌};
ghost use Rattle.first_tables.specs.TablesOf.{operands_of};
ghost use Rattle.machine_rows.specs.Table.{rows, int_row, word_row, char_row, text_row, int_test, word_test, text_test};

use first_tables::operation::Operands;
use mlc_prims::basis::BasisPrimitive;
use mlc_prims::prim::PrimExn;

/// The size of a primitive's code at these operands.
pub fn row_size(operands: Operands, primitive: BasisPrimitive) -> u32
    ensures { result ≡ rows.size (operands_of operands) primitive }
{
    match operands {
        Operands::Ints => int_size(primitive),
        Operands::Words => word_size(primitive),
        Operands::Chars => char_size(primitive),
        Operands::Texts => text_size(primitive),
    }
}

/// The exception whose packet is put into its slot only where the primitive goes on with it.
pub fn late_exception(operands: Operands, primitive: BasisPrimitive) -> Option<PrimExn>
    ensures { result ≡ rows.late (operands_of operands) primitive }
{
    match operands {
        Operands::Ints => match primitive {
            BasisPrimitive::Add | BasisPrimitive::Subtract | BasisPrimitive::Multiply => {
                Some(PrimExn::Overflow)
            }
            BasisPrimitive::Modulo | BasisPrimitive::Remainder => Some(PrimExn::Div),
            _ => None,
        },
        Operands::Words => match primitive {
            BasisPrimitive::Divide | BasisPrimitive::Modulo => Some(PrimExn::Div),
            _ => None,
        },
        Operands::Chars | Operands::Texts => None,
    }
}

/// The size of its code as a test.
pub fn test_size(operands: Operands, primitive: BasisPrimitive) -> u32
    ensures { result ≡ rows.test_size (operands_of operands) primitive }
{
    match operands {
        Operands::Ints => int_test_size(primitive),
        Operands::Words | Operands::Chars => word_test_size(primitive),
        Operands::Texts => text_test_size(primitive),
    }
}

fn int_size(primitive: BasisPrimitive) -> u32
    ensures { result ≡ (int_row primitive).size }
{
    match primitive {
        BasisPrimitive::Less
        | BasisPrimitive::Greater
        | BasisPrimitive::Equals
        | BasisPrimitive::FromInt
        | BasisPrimitive::TextOf => 1,
        BasisPrimitive::Add
        | BasisPrimitive::Subtract
        | BasisPrimitive::Multiply
        | BasisPrimitive::Modulo
        | BasisPrimitive::Remainder => 2,
        BasisPrimitive::LessEqual | BasisPrimitive::GreaterEqual => 3,
        BasisPrimitive::Negate => 4,
        BasisPrimitive::Divide | BasisPrimitive::Quotient | BasisPrimitive::CharOf => 5,
        BasisPrimitive::Absolute => 8,
        _ => 0,
    }
}

fn word_size(primitive: BasisPrimitive) -> u32
    ensures { result ≡ (word_row primitive).size }
{
    match primitive {
        BasisPrimitive::Add
        | BasisPrimitive::Subtract
        | BasisPrimitive::Multiply
        | BasisPrimitive::Less
        | BasisPrimitive::Greater
        | BasisPrimitive::Equals
        | BasisPrimitive::BitsAnd
        | BasisPrimitive::BitsOr
        | BasisPrimitive::BitsXor
        | BasisPrimitive::ShiftLeft
        | BasisPrimitive::ShiftRight
        | BasisPrimitive::ShiftSigned
        | BasisPrimitive::ToIntSigned => 1,
        BasisPrimitive::Negate
        | BasisPrimitive::BitsNot
        | BasisPrimitive::Divide
        | BasisPrimitive::Modulo => 2,
        BasisPrimitive::LessEqual | BasisPrimitive::GreaterEqual => 3,
        BasisPrimitive::ToInt => 5,
        _ => 0,
    }
}

fn char_size(primitive: BasisPrimitive) -> u32
    ensures { result ≡ (char_row primitive).size }
{
    match primitive {
        BasisPrimitive::Less
        | BasisPrimitive::Greater
        | BasisPrimitive::Equals
        | BasisPrimitive::CharCode => 1,
        BasisPrimitive::LessEqual | BasisPrimitive::GreaterEqual => 3,
        BasisPrimitive::StringOf => 4,
        _ => 0,
    }
}

fn text_size(primitive: BasisPrimitive) -> u32
    ensures { result ≡ (text_row primitive).size }
{
    match primitive {
        BasisPrimitive::SizeOf => 1,
        BasisPrimitive::Less
        | BasisPrimitive::LessEqual
        | BasisPrimitive::Greater
        | BasisPrimitive::GreaterEqual
        | BasisPrimitive::Equals => 3,
        BasisPrimitive::CharAt => 6,
        BasisPrimitive::PartOf => 17,
        BasisPrimitive::Concat => 20,
        _ => 0,
    }
}

fn int_test_size(primitive: BasisPrimitive) -> u32
    ensures { result ≡ (int_test primitive).size }
{
    match primitive {
        BasisPrimitive::Less | BasisPrimitive::Greater | BasisPrimitive::Equals => 2,
        BasisPrimitive::LessEqual | BasisPrimitive::GreaterEqual => 3,
        _ => 0,
    }
}

fn word_test_size(primitive: BasisPrimitive) -> u32
    ensures { result ≡ (word_test primitive).size }
{
    match primitive {
        BasisPrimitive::Less | BasisPrimitive::Greater | BasisPrimitive::Equals => 2,
        BasisPrimitive::LessEqual | BasisPrimitive::GreaterEqual => 3,
        _ => 0,
    }
}

fn text_test_size(primitive: BasisPrimitive) -> u32
    ensures { result ≡ (text_test primitive).size }
{
    match primitive {
        BasisPrimitive::LessEqual | BasisPrimitive::GreaterEqual => 2,
        BasisPrimitive::Less | BasisPrimitive::Greater => 3,
        BasisPrimitive::Equals => 4,
        _ => 0,
    }
}
