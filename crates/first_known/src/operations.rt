// Whether operations and tests are well formed.
ghost use Rattle.std.specs.Prelude.{◌≡◌, ◌↔◌, IsTrue};
ghost use Rattle.first_values.specs.WellFormed.{IsConstant, IsPlain, IsTest};
ghost use Rattle.first_values.specs.Raising as raising;
ghost use Rattle.first_tables.specs.TablesOf.{tables_of, constant_of, operands_of, plain_of, test_of};

use crate::answers::both;
use first_tables::operation::{Constant, Operands, Plain, Test};
use first_tables::tables::Tables;
use mlc_prims::basis::BasisPrimitive;

fn raises_at_ints(primitive: BasisPrimitive) -> bool
    ensures { result ≡ raising.raises_at_ints primitive }
{
    match primitive {
        BasisPrimitive::Add => true,
        BasisPrimitive::Subtract => true,
        BasisPrimitive::Multiply => true,
        BasisPrimitive::Divide => true,
        BasisPrimitive::Modulo => true,
        BasisPrimitive::Negate => true,
        BasisPrimitive::Absolute => true,
        BasisPrimitive::Quotient => true,
        BasisPrimitive::Remainder => true,
        BasisPrimitive::CharOf => true,
        _ => false,
    }
}

fn raises_at_words(primitive: BasisPrimitive) -> bool
    ensures { result ≡ raising.raises_at_words primitive }
{
    match primitive {
        BasisPrimitive::Divide => true,
        BasisPrimitive::Modulo => true,
        BasisPrimitive::ToInt => true,
        _ => false,
    }
}

fn raises_at_texts(primitive: BasisPrimitive) -> bool
    ensures { result ≡ raising.raises_at_texts primitive }
{
    match primitive {
        BasisPrimitive::CharAt => true,
        BasisPrimitive::PartOf => true,
        BasisPrimitive::Concat => true,
        _ => false,
    }
}

/// Whether a primitive may raise at such operands.
pub fn may_raise(operands: Operands, primitive: BasisPrimitive) -> bool
    ensures { result ≡ raising.may_raise (operands_of operands) primitive }
{
    match operands {
        Operands::Ints => raises_at_ints(primitive),
        Operands::Words => raises_at_words(primitive),
        Operands::Chars => false,
        Operands::Texts => raises_at_texts(primitive),
    }
}

/// Whether a constant is there.
pub fn is_constant(tables: &Tables, constant: Constant) -> bool
    ensures { IsTrue result ↔ IsConstant (tables_of tables.now) (constant_of constant) }
{
    match constant {
        Constant::Int(_) => true,
        Constant::Word(_) => true,
        Constant::Char(_) => true,
        Constant::Text(number) => number < tables.strings.len(),
        Constant::Truth(_) => true,
    }
}

/// Whether an operation is one on so many operands.
pub fn is_plain(tables: &Tables, plain: Plain, count: usize) -> bool
    ensures { IsTrue result ↔ IsPlain (tables_of tables.now) (plain_of plain) count }
{
    match plain {
        Plain::Same => count == 1,
        Plain::Constant(constant) => both(is_constant(tables, constant), count == 0),
        Plain::Field(_) => count == 1,
        Plain::Refer => count == 1,
        Plain::Content => count == 1,
        Plain::Assign => count == 2,
        Plain::Exception(_) => count == 0,
        Plain::Initial(number) => both(number < tables.initial.len(), count == 0),
        Plain::Pack => count == 2,
        Plain::Argument => count == 1,
        Plain::Compute(operands, primitive) => !may_raise(operands, primitive),
        Plain::Equal(ty) => both(ty < tables.types.len(), count == 2),
        Plain::Print => count == 1,
    }
}

/// Whether a test is one on so many operands.
pub fn is_test(tables: &Tables, test: Test, count: usize) -> bool
    ensures { IsTrue result ↔ IsTest (tables_of tables.now) (test_of test) count }
{
    match test {
        Test::Is(constant) => both(is_constant(tables, constant), count == 1),
        Test::IsOf => count == 2,
        Test::Holds(operands, primitive) => !may_raise(operands, primitive),
    }
}
