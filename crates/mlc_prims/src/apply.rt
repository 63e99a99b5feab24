// Applying a primitive.

ghost use Rattle.mlc_prims.specs.LitOf.{lits_of};
ghost use Rattle.mlc_prims.specs.PrimOf.{AreShort, MeetsRow};
ghost use Rattle.mlc_prims.specs.Table.{row_of, HasBasisRow};
ghost use Rattle.std.specs.Prelude.{Some};

use crate::applied::Applied;
use crate::basis::BasisPrimitive;
use crate::lit::Lit;
use crate::{compare, numbers, strings, words};
use std::alloc::Global;

/// What the row of a primitive gives for these values, where it has one.
pub fn try_prim(alloc: Global, prim: BasisPrimitive, args: &[Lit]) -> Option<Applied>
    requires { AreShort (lits_of args.now) }
    ensures { MeetsRow result (row_of prim (lits_of args.now)) }
{
    match prim {
        BasisPrimitive::Add => numbers::add(args),
        BasisPrimitive::Subtract => numbers::subtract(args),
        BasisPrimitive::Multiply => numbers::multiply(args),
        BasisPrimitive::Divide => numbers::divide(args),
        BasisPrimitive::Modulo => numbers::modulo(args),
        BasisPrimitive::Negate => numbers::negate(args),
        BasisPrimitive::Absolute => numbers::absolute(args),
        BasisPrimitive::Less => compare::less(args),
        BasisPrimitive::LessEqual => compare::less_equal(args),
        BasisPrimitive::Greater => compare::greater(args),
        BasisPrimitive::GreaterEqual => compare::greater_equal(args),
        BasisPrimitive::Equals => compare::equals(args),
        BasisPrimitive::Quotient => numbers::quotient(args),
        BasisPrimitive::Remainder => numbers::remainder(args),
        BasisPrimitive::BitsAnd => words::bits_and(args),
        BasisPrimitive::BitsOr => words::bits_or(args),
        BasisPrimitive::BitsXor => words::bits_xor(args),
        BasisPrimitive::BitsNot => words::bits_not(args),
        BasisPrimitive::ShiftLeft => words::left(args),
        BasisPrimitive::ShiftRight => words::right(args),
        BasisPrimitive::ShiftSigned => words::right_with_sign(args),
        BasisPrimitive::ToInt => words::to_int(args),
        BasisPrimitive::ToIntSigned => words::to_int_signed(args),
        BasisPrimitive::FromInt => words::from_int(args),
        BasisPrimitive::CharCode => strings::char_code(args),
        BasisPrimitive::CharOf => strings::char_of(args),
        BasisPrimitive::TextOf => strings::text_of(alloc, args),
        BasisPrimitive::SizeOf => strings::size_of(args),
        BasisPrimitive::CharAt => strings::char_at(args),
        BasisPrimitive::PartOf => strings::part_of(alloc, args),
        BasisPrimitive::Concat => strings::concat(alloc, args),
        BasisPrimitive::StringOf => strings::string_of(alloc, args),
        BasisPrimitive::Assign | BasisPrimitive::Print => None,
    }
}

/// What the row of a primitive gives for these values. Want of memory is answered only where that is a string.
pub fn apply_prim(alloc: Global, prim: BasisPrimitive, args: &[Lit]) -> Applied
    requires row { HasBasisRow prim (lits_of args.now) }
    requires short { AreShort (lits_of args.now) }
    ensures { MeetsRow (Some result) (row_of prim (lits_of args.now)) }
{
    match try_prim(alloc, prim, args) {
        Some(applied) => applied,
        None => unreachable!(),
    }
}
