// What types are, asked by their numbers.
ghost use Rattle.std.specs.Prelude.{◌≡◌, ◌↔◌, [], IsTrue, MatchOption};
ghost use Rattle.ir_tables.specs.of_ty_core.Types.{Typ, var};
ghost use Rattle.ir_tables.specs.of_ty_table.TypeAt.{type_at};
ghost use Rattle.ir_tables.specs.of_ir_poly.Types.{of_name, function_type, ref_type, unit_type, bool_name};

use ir_tables::ty_core::name::{Equality, TyName};
use ir_tables::ty_core::ty::Head;
use ir_tables::ty_table::types::{Types, View};
use mlc_names::label::Label;

/// The type name of truth values.
pub const BOOL: TyName = TyName {
    stamp: 6,
    arity: 0,
    equality: Equality::ByArguments,
};

/// Whether a type is the variable 0, which every number past the table reads as.
fn is_first(types: &Types, t: usize) -> bool
    ensures { IsTrue result ↔ (type_at types.now t ≡ var 0) }
{
    match types.view(t) {
        View::Var(v) => v == 0,
        View::Apply(_, _) => false,
    }
}

/// Whether two numbers stand for one type.
pub fn same_type(types: &Types, t: usize, u: usize) -> bool
    ensures { IsTrue result ↔ (type_at types.now t ≡ type_at types.now u) }
{
    let len = types.len();
    if t == u {
        return true;
    }
    if t < len && u < len {
        return false;
    }
    is_first(types, t) && is_first(types, u)
}

/// Whether two type names are one.
fn same_name(name: TyName, other: TyName) -> bool
    ensures { IsTrue result ↔ (name ≡ other) }
{
    name == other
}

/// Whether there are no parts.
fn is_none(parts: &[usize]) -> bool
    ensures { IsTrue result ↔ (parts.now ≡ []) }
{
    parts.is_empty()
}

/// Whether there are no labels.
fn has_no_labels(labels: &[Label]) -> bool
    ensures { IsTrue result ↔ (labels.now ≡ []) }
{
    labels.is_empty()
}

/// Whether a type is a type name with no arguments.
pub fn is_named(types: &Types, t: usize, name: TyName) -> bool
    ensures { IsTrue result ↔ (type_at types.now t ≡ of_name name) }
{
    match types.view(t) {
        View::Var(_) => false,
        View::Apply(head, parts) => match head {
            Head::Named(found) => {
                if !same_name(*found, name) {
                    return false;
                }
                is_none(parts)
            }
            Head::Function => false,
            Head::Record(_) => false,
        },
    }
}

/// What a function from this type gives, if a type is one.
pub fn result_from(types: &Types, t: usize, argument: usize) -> Option<usize>
    ensures { MatchOption result ((u : Typ) → type_at types.now t ≡ function_type (type_at types.now argument) u → ⊥)
        (λ u. type_at types.now t ≡ function_type (type_at types.now argument) (type_at types.now u)) }
{
    match types.view(t) {
        View::Var(_) => None,
        View::Apply(head, parts) => match head {
            Head::Function => {
                if parts.len() != 2 {
                    return None;
                }
                if !same_type(types, parts[0], argument) {
                    return None;
                }
                Some(parts[1])
            }
            Head::Named(_) => None,
            Head::Record(_) => None,
        },
    }
}

/// Whether a type is that of functions between two.
pub fn is_function(types: &Types, t: usize, argument: usize, result_type: usize) -> bool
    ensures { IsTrue result ↔ (type_at types.now t ≡ function_type (type_at types.now argument) (type_at types.now result_type)) }
{
    match result_from(types, t, argument) {
        Some(found) => same_type(types, found, result_type),
        None => false,
    }
}

/// Whether a type is that of references to another.
pub fn is_reference(types: &Types, t: usize, held: usize) -> bool
    ensures { IsTrue result ↔ (type_at types.now t ≡ ref_type (type_at types.now held)) }
{
    match types.view(t) {
        View::Var(_) => false,
        View::Apply(head, parts) => match head {
            Head::Named(found) => {
                if !same_name(*found, TyName::REF) {
                    return false;
                }
                if parts.len() != 1 {
                    return false;
                }
                same_type(types, parts[0], held)
            }
            Head::Function => false,
            Head::Record(_) => false,
        },
    }
}

/// Whether a type is unit, the record without fields.
pub fn is_unit(types: &Types, t: usize) -> bool
    ensures { IsTrue result ↔ (type_at types.now t ≡ unit_type) }
{
    match types.view(t) {
        View::Var(_) => false,
        View::Apply(head, parts) => match head {
            Head::Record(labels) => {
                if !has_no_labels(labels) {
                    return false;
                }
                is_none(parts)
            }
            Head::Function => false,
            Head::Named(_) => false,
        },
    }
}
