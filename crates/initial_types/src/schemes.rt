// Schemes of the initial basis.
ghost use Rattle.std.specs.Prelude.{◌≡◌, ◌<◌, length, slice_get, take, IfOk, Some};
ghost use Rattle.ty_table.specs.TypeAt.{AllBelow};
ghost use Rattle.core_rules.specs.Initial.{entries, hidden, integers};
ghost use Rattle.initial_types.specs.Schemes.{bodies_of, row_body, row_mark, row_schemes, schemes_in, schemes_of};

use crate::row::{Row, Scheme};
use crate::shapes::{applied, function, pair, primitive_in, shape_in};
use ir_known::ask::BOOL;
use ir_uses::shape::{Shape, primitive_type};
use mlc_base::memory::NoMemory;
use mlc_prims::basis::BasisPrimitive;
use std::alloc::Global;
use ty_core::mark::Mark;
use ty_core::name::{Equality, TyName};
use ty_table::types::Types;

const LIST: TyName = TyName {
    stamp: 7,
    arity: 1,
    equality: Equality::ByArguments,
};

/// The type of functions from the parameter to its references.
fn reference_in(alloc: Global, types: &mut Types) -> Result<usize, NoMemory>
    ensures is { IfOk result (λ r. slice_get types.new r ≡ Some (row_body Row.Reference)) }
    ensures earlier_stay { take (length types.old) types.new ≡ types.old }
{
    let parameter = types.variable(alloc, 0)?;
    let reference = applied(alloc, types, TyName::REF, parameter)?;
    function(alloc, types, parameter, reference)
}

/// The type of lists of the parameter.
fn list_in(alloc: Global, types: &mut Types) -> Result<usize, NoMemory>
    ensures is { IfOk result (λ r. slice_get types.new r ≡ Some (row_body Row.Nil)) }
    ensures earlier_stay { take (length types.old) types.new ≡ types.old }
{
    let parameter = types.variable(alloc, 0)?;
    applied(alloc, types, LIST, parameter)
}

/// The type of functions from an element and a list to a list.
fn cons_in(alloc: Global, types: &mut Types) -> Result<usize, NoMemory>
    ensures is { IfOk result (λ r. slice_get types.new r ≡ Some (row_body Row.Cons)) }
    ensures earlier_stay { take (length types.old) types.new ≡ types.old }
{
    let parameter = types.variable(alloc, 0)?;
    let list = applied(alloc, types, LIST, parameter)?;
    let both = pair(alloc, types, parameter, list)?;
    function(alloc, types, both, list)
}

/// The body of a row.
fn body_in(alloc: Global, types: &mut Types, row: Row) -> Result<usize, NoMemory>
    ensures is { IfOk result (λ r. slice_get types.new r ≡ Some (row_body row)) }
    ensures earlier_stay { take (length types.old) types.new ≡ types.old }
{
    match row {
        Row::Reference => reference_in(alloc, types),
        Row::Truth => shape_in(alloc, types, Shape::Named(BOOL)),
        Row::Nil => list_in(alloc, types),
        Row::Cons => cons_in(alloc, types),
        Row::Exception => shape_in(alloc, types, Shape::Named(TyName::EXN)),
        Row::General(primitive) => primitive_in(alloc, types, primitive),
        Row::Plain(primitive) => primitive_in(alloc, types, primitive),
    }
}

/// The mark of a row's parameter, if it has one.
fn mark_in(row: Row) -> Option<Mark>
    ensures { result ≡ row_mark row }
{
    match row {
        Row::Reference => Some(Mark::Any),
        Row::Truth => None,
        Row::Nil => Some(Mark::Any),
        Row::Cons => Some(Mark::Any),
        Row::Exception => None,
        Row::General(primitive) => Some(primitive_type(primitive).mark),
        Row::Plain(_) => None,
    }
}

/// The schemes of rows.
fn schemes(alloc: Global, types: &mut Types, rows: &[Row]) -> Result<Vec<Scheme>, NoMemory>
    ensures held { IfOk result (λ made. AllBelow (length types.new) (bodies_of made.items)) }
    ensures are { IfOk result (λ made. schemes_of types.new made.items ≡ row_schemes rows.now) }
    ensures earlier_stay { take (length types.old) types.new ≡ types.old }
{
    let mut made = Vec::new(alloc);
    for i in 0..rows.len() {
        let row = rows[i];
        let body = body_in(alloc, types, row)?;
        let mark = mark_in(row);
        made.push(Scheme { mark, body })?;
    }
    Ok(made)
}

const ROWS: [Row; 25] = [
    Row::Reference,
    Row::Truth,
    Row::Truth,
    Row::Nil,
    Row::Cons,
    Row::Exception,
    Row::Exception,
    Row::Exception,
    Row::Exception,
    Row::Exception,
    Row::Exception,
    Row::Exception,
    Row::General(BasisPrimitive::Add),
    Row::General(BasisPrimitive::Subtract),
    Row::General(BasisPrimitive::Multiply),
    Row::General(BasisPrimitive::Divide),
    Row::General(BasisPrimitive::Modulo),
    Row::General(BasisPrimitive::Negate),
    Row::Plain(BasisPrimitive::Absolute),
    Row::General(BasisPrimitive::Less),
    Row::General(BasisPrimitive::LessEqual),
    Row::General(BasisPrimitive::Greater),
    Row::General(BasisPrimitive::GreaterEqual),
    Row::General(BasisPrimitive::Equals),
    Row::General(BasisPrimitive::Assign),
];

const HIDDEN: [Row; 21] = [
    Row::Plain(BasisPrimitive::Quotient),
    Row::Plain(BasisPrimitive::Remainder),
    Row::Plain(BasisPrimitive::BitsAnd),
    Row::Plain(BasisPrimitive::BitsOr),
    Row::Plain(BasisPrimitive::BitsXor),
    Row::Plain(BasisPrimitive::BitsNot),
    Row::Plain(BasisPrimitive::ShiftLeft),
    Row::Plain(BasisPrimitive::ShiftRight),
    Row::Plain(BasisPrimitive::ShiftSigned),
    Row::Plain(BasisPrimitive::ToInt),
    Row::Plain(BasisPrimitive::ToIntSigned),
    Row::Plain(BasisPrimitive::FromInt),
    Row::Plain(BasisPrimitive::CharCode),
    Row::Plain(BasisPrimitive::CharOf),
    Row::Plain(BasisPrimitive::TextOf),
    Row::Plain(BasisPrimitive::SizeOf),
    Row::Plain(BasisPrimitive::CharAt),
    Row::Plain(BasisPrimitive::PartOf),
    Row::Plain(BasisPrimitive::Concat),
    Row::Plain(BasisPrimitive::StringOf),
    Row::Plain(BasisPrimitive::Print),
];

const INTEGERS: [Row; 3] = [
    Row::Plain(BasisPrimitive::TextOf),
    Row::Plain(BasisPrimitive::Quotient),
    Row::Plain(BasisPrimitive::Remainder),
];

/// The schemes of the initial basis' values, in their order.
pub fn initial_schemes(alloc: Global, types: &mut Types) -> Result<Vec<Scheme>, NoMemory>
    ensures held { IfOk result (λ made. AllBelow (length types.new) (bodies_of made.items)) }
    ensures are { IfOk result (λ made. schemes_of types.new made.items ≡ schemes_in entries) }
    ensures earlier_stay { take (length types.old) types.new ≡ types.old }
{
    schemes(alloc, types, &ROWS)
}

/// The schemes of the members of `Prim`.
pub fn hidden_schemes(alloc: Global, types: &mut Types) -> Result<Vec<Scheme>, NoMemory>
    ensures held { IfOk result (λ made. AllBelow (length types.new) (bodies_of made.items)) }
    ensures are { IfOk result (λ made. schemes_of types.new made.items ≡ schemes_in hidden) }
    ensures earlier_stay { take (length types.old) types.new ≡ types.old }
{
    schemes(alloc, types, &HIDDEN)
}

/// The schemes of the members of `Int`.
pub fn integer_schemes(alloc: Global, types: &mut Types) -> Result<Vec<Scheme>, NoMemory>
    ensures held { IfOk result (λ made. AllBelow (length types.new) (bodies_of made.items)) }
    ensures are { IfOk result (λ made. schemes_of types.new made.items ≡ schemes_in integers) }
    ensures earlier_stay { take (length types.old) types.new ≡ types.old }
{
    schemes(alloc, types, &INTEGERS)
}
