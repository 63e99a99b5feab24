// What primitives become.
ghost use Rattle.std.specs.Prelude.{◌≡◌, ℕ, List, Some, nat_eq};
ghost use Rattle.ty_core.specs.TypesOf.{head_of};
ghost use Rattle.ir_values.specs.Primitives.{sort_of, is_overloaded as overloaded};
ghost use Rattle.ir_mono.specs.Types.{node, node_at};
ghost use Rattle.first_tree.specs.TreeOf.{operation_of};
ghost use Rattle.first_tables.specs.TablesOf.{operands_of as operands_are};
ghost use Rattle.closure_meaning.specs.Convert as clean;
ghost use Rattle.closure_parts.specs.Stamps.{by_stamp};

use first_known::operations::may_raise;
use first_tables::operation::{Operands, Plain};
use first_tree::tree::Operation;
use mlc_prims::basis::BasisPrimitive;
use mono_types::types::{Types, View};
use ty_core::name::TyName;
use ty_core::ty::Head;

/// Whether a primitive has a choice of types.
fn is_overloaded(primitive: BasisPrimitive) -> bool
    ensures { result ≡ overloaded primitive }
{
    match primitive {
        BasisPrimitive::Add => true,
        BasisPrimitive::Subtract => true,
        BasisPrimitive::Multiply => true,
        BasisPrimitive::Divide => true,
        BasisPrimitive::Modulo => true,
        BasisPrimitive::Negate => true,
        BasisPrimitive::Less => true,
        BasisPrimitive::LessEqual => true,
        BasisPrimitive::Greater => true,
        BasisPrimitive::GreaterEqual => true,
        _ => false,
    }
}

fn is_stamp(stamp: u32, other: u32) -> bool
    ensures { result ≡ nat_eq stamp other }
{
    stamp == other
}

fn operands_named(stamp: u32) -> Operands
    ensures { operands_are result ≡ by_stamp stamp }
{
    if is_stamp(stamp, TyName::INT.stamp) {
        Operands::Ints
    } else if is_stamp(stamp, TyName::WORD.stamp) {
        Operands::Words
    } else if is_stamp(stamp, TyName::CHAR.stamp) {
        Operands::Chars
    } else {
        Operands::Texts
    }
}

fn operands_by(head: &Head) -> Operands
    ensures { (ps : List ℕ) → operands_are result ≡ clean.operands_at (Some (node (head_of head.now) ps)) }
{
    match head {
        Head::Named(name) => operands_named(name.stamp),
        Head::Function => Operands::Texts,
        Head::Record(_) => Operands::Texts,
    }
}

/// Operands of a type, told by its name's number alone.
fn operands_at(types: &Types, ty: usize) -> Operands
    ensures { operands_are result ≡ clean.operands_at (node_at types.now ty) }
{
    match types.view(ty) {
        View::Nothing => Operands::Texts,
        View::Apply(head, _) => operands_by(head),
    }
}

/// The operands of a primitive without a choice of types.
fn operands_of(primitive: BasisPrimitive) -> Operands
    ensures { operands_are result ≡ clean.operands_of primitive }
{
    match primitive {
        BasisPrimitive::BitsAnd => Operands::Words,
        BasisPrimitive::BitsOr => Operands::Words,
        BasisPrimitive::BitsXor => Operands::Words,
        BasisPrimitive::BitsNot => Operands::Words,
        BasisPrimitive::ShiftLeft => Operands::Words,
        BasisPrimitive::ShiftRight => Operands::Words,
        BasisPrimitive::ShiftSigned => Operands::Words,
        BasisPrimitive::ToInt => Operands::Words,
        BasisPrimitive::ToIntSigned => Operands::Words,
        BasisPrimitive::CharCode => Operands::Chars,
        BasisPrimitive::StringOf => Operands::Chars,
        BasisPrimitive::SizeOf => Operands::Texts,
        BasisPrimitive::CharAt => Operands::Texts,
        BasisPrimitive::PartOf => Operands::Texts,
        BasisPrimitive::Concat => Operands::Texts,
        _ => Operands::Ints,
    }
}

fn operands(types: &Types, primitive: BasisPrimitive, ty: usize) -> Operands
    ensures { operands_are result ≡ clean.operands types.now primitive ty }
{
    if is_overloaded(primitive) {
        operands_at(types, ty)
    } else {
        operands_of(primitive)
    }
}

/// What is computed, which may raise.
fn computed(operands: Operands, primitive: BasisPrimitive, arguments: Vec<usize>) -> Operation
    ensures { operation_of result ≡ clean.computed (operands_are operands) primitive arguments.items }
{
    if may_raise(operands, primitive) {
        Operation::Attempt(operands, primitive, arguments)
    } else {
        Operation::Plain(Plain::Compute(operands, primitive), arguments)
    }
}

/// A primitive at a type, of these arguments.
pub fn performed(
    types: &Types,
    primitive: BasisPrimitive,
    ty: usize,
    arguments: Vec<usize>,
) -> Operation
    ensures { operation_of result ≡ clean.performed types.now (sort_of primitive) primitive ty arguments.items }
{
    match primitive {
        BasisPrimitive::Equals => Operation::Plain(Plain::Equal(ty), arguments),
        BasisPrimitive::Assign => Operation::Plain(Plain::Assign, arguments),
        BasisPrimitive::Print => Operation::Plain(Plain::Print, arguments),
        _ => computed(operands(types, primitive, ty), primitive, arguments),
    }
}
