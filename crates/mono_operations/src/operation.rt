// Whether an operation without expressions fits.
ghost use Rattle.std.specs.Prelude.{◌≡◌, ◌++◌, ◌&&◌, List, ℕ, nat_eq, nat_lt, IfOk, Some};
ghost use Rattle.std.specs.Map.{lookup};
ghost use Rattle.ir_mono.specs.Types.{node_at};
ghost use Rattle.ir_mono.specs.Typing.{sort_of};
ghost use Rattle.plain_tree.specs.TreeOf.{operation_of, row_of, atoms_of};
ghost use Rattle.mono_uses.specs.of_mono_fits.Asked.{given, is_record_node, are_distinct, is_exn, is_reference, is_function, has_constructor, field_of, performs};
ghost use Rattle.mono_uses.specs.of_mono_fits.Fits.{sort_fits, op_fits, type_of, types_of, row_fits};
ghost use Rattle.mono_operations.specs.Reads.{reading, sort_in, local, all};

use crate::atom::{atom_type, atom_types, fields_fit, is_atom, is_exception_of};
use crate::distinct::are_distinct;
use crate::tables::Tables;
use ir_known::known::Known;
use ir_known::scope::Scope;
use mlc_base::memory::NoMemory;
use mlc_names::label::Label;
use mlc_prims::basis::BasisPrimitive;
use mono_uses::ask::{
    field_of, has_constructor, has_literal, is_alone_use, is_exception, is_exn, is_function,
    is_maker, is_reference,
};
use mono_uses::mono_types::types::Types;
use mono_uses::node::record_parts;
use mono_uses::primitive::{is_primitive, performs};
use plain_tree::tree::{Field, Operation};
use std::alloc::Global;

/// Whether what is known fits a type.
fn known_fits(tables: &Tables, known: Known, ty: usize) -> bool
    ensures { result ≡ sort_fits tables.now.types tables.now.exn (sort_in known) ty }
{
    match known {
        Known::OfType(of) => of == ty,
        Known::General {
            parameters: _,
            ty: of,
        } => of == ty,
        Known::Own(of) => of == ty,
        Known::Exception(argument) => is_exception(&tables.types, argument, ty),
    }
}

fn found_fits(tables: &Tables, known: Option<Known>, ty: usize) -> bool
    ensures { result ≡ given known (λ k. sort_fits tables.now.types tables.now.exn (sort_in k) ty) }
{
    match known {
        Some(found) => known_fits(tables, found, ty),
        None => false,
    }
}

/// Whether a variable in scope is a value of a type.
fn use_fits(tables: &Tables, scope: &Scope, variable: usize, ty: usize) -> bool
    ensures { result ≡ given (sort_of (all scope.now) variable) (λ s. sort_fits tables.now.types tables.now.exn s ty) }
{
    found_fits(tables, scope.find(variable), ty)
}

/// Whether a type has a constructor with an atom's type.
fn takes_atom(types: &Types, scope: &Scope, constructor: usize, atom: usize, ty: usize) -> bool
    ensures { result ≡ given (type_of (local scope.now) atom) (λ a. has_constructor types.now ty constructor (Some a)) }
{
    match atom_type(scope, atom) {
        Some(argument) => has_constructor(types, ty, constructor, Some(argument)),
        None => false,
    }
}

/// Whether an atom is a reference to values of a type.
fn refers_to(types: &Types, scope: &Scope, atom: usize, ty: usize) -> bool
    ensures { result ≡ given (type_of (local scope.now) atom) (λ r. is_reference types.now r ty) }
{
    match atom_type(scope, atom) {
        Some(of) => is_reference(types, of, ty),
        None => false,
    }
}

/// Whether an atom is an exception.
fn is_packet(types: &Types, scope: &Scope, atom: usize) -> bool
    ensures { result ≡ given (type_of (local scope.now) atom) (is_exn types.now) }
{
    match atom_type(scope, atom) {
        Some(of) => is_exn(types, of),
        None => false,
    }
}

/// Whether functions of a type take an atom and give values of another.
fn takes(types: &Types, scope: &Scope, of: usize, argument: usize, ty: usize) -> bool
    ensures { result ≡ given (type_of (local scope.now) argument) (λ a. is_function types.now of a ty) }
{
    match atom_type(scope, argument) {
        Some(a) => is_function(types, of, a, ty),
        None => false,
    }
}

/// Whether an atom is a function that takes another and gives values of a type.
fn applies(types: &Types, scope: &Scope, function: usize, argument: usize, ty: usize) -> bool
    ensures { result ≡ given (type_of (local scope.now) function) (λ u. given (type_of (local scope.now) argument) (λ a. is_function types.now u a ty)) }
{
    match atom_type(scope, function) {
        Some(of) => takes(types, scope, of, argument, ty),
        None => false,
    }
}

/// Whether a field of a type is of another.
fn is_field_of(types: &Types, u: usize, label: Label, ty: usize) -> bool
    ensures { result ≡ given (field_of types.now u label) (nat_eq ty) }
{
    match field_of(types, u, label) {
        Some(found) => ty == found,
        None => false,
    }
}

fn parts_fit(
    alloc: Global,
    scope: &Scope,
    fields: &[Field],
    labels: &[Label],
    parts: &[usize],
) -> Result<bool, NoMemory>
    ensures { (t : Tables) → IfOk result (λ yes. yes
        ≡ (row_fits t.types t.exn (local scope.now) (row_of (reading t) fields.now) labels.now parts.now && are_distinct labels.now)) }
{
    if !fields_fit(scope, fields, labels, parts) {
        return Ok(false);
    }
    let distinct = are_distinct(alloc, labels)?;
    Ok(distinct)
}

/// Whether fields make a record of a type.
fn makes(
    alloc: Global,
    tables: &Tables,
    scope: &Scope,
    fields: &[Field],
    ty: usize,
) -> Result<bool, NoMemory>
    ensures { IfOk result (λ yes. yes ≡ given (node_at tables.now.types ty) (is_record_node (λ ls ts. row_fits tables.now.types tables.now.exn (local scope.now)
        (row_of (reading tables.now) fields.now) ls ts && are_distinct ls))) }
{
    match record_parts(&tables.types, ty) {
        Some((labels, parts)) => {
            let fit = parts_fit(alloc, scope, fields, labels, parts)?;
            Ok(fit)
        }
        None => Ok(false),
    }
}

/// Whether a primitive at a type takes atoms and gives values of another.
fn does_perform(
    alloc: Global,
    tables: &Tables,
    scope: &Scope,
    primitive: BasisPrimitive,
    u: usize,
    arguments: &[usize],
    ty: usize,
) -> Result<bool, NoMemory>
    ensures { IfOk result (λ yes. yes ≡ given (types_of tables.now.types tables.now.exn (local scope.now) (atoms_of (reading tables.now) arguments.now))
        (λ ts. performs tables.now.types primitive u ts ty)) }
{
    let found = atom_types(alloc, scope, arguments)?;
    match found {
        Some(ns) => Ok(performs(&tables.types, primitive, u, &ns, ty)),
        None => Ok(false),
    }
}

/// Whether an operation that holds no expression is of a type.
pub fn operation_fits(
    alloc: Global,
    tables: &Tables,
    scope: &Scope,
    operation: &Operation,
    ty: usize,
) -> Result<bool, NoMemory>
    ensures { IfOk result (λ yes. yes ≡ op_fits tables.now.types tables.now.exn (all scope.now) (local scope.now) (operation_of (reading tables.now) operation.now) ty) }
{
    let types = &tables.types;
    match operation {
        Operation::Use(variable, _) => Ok(use_fits(tables, scope, *variable, ty)),
        Operation::Constant(constant) => Ok(has_literal(types, *constant, ty)),
        Operation::Constructor {
            constructor,
            ty: of,
        } => Ok(is_alone_use(types, *constructor, *of, ty)),
        Operation::Construct {
            place: _,
            constructor,
            ty: of,
            argument,
        } => Ok(*of == ty && takes_atom(types, scope, *constructor, *argument, ty)),
        Operation::Reference(held) => Ok(is_maker(types, *held, ty)),
        Operation::Refer {
            place: _,
            ty: held,
            argument,
        } => Ok(is_atom(scope, *argument, *held) && is_reference(types, ty, *held)),
        Operation::Content { ty: of, reference } => Ok(
            *of == ty && refers_to(types, scope, *reference, ty),
        ),
        Operation::Pack {
            place: _,
            ty: of,
            exception,
            argument,
        } => {
            if !is_exception_of(scope, *exception, Some(*of)) {
                return Ok(false);
            }
            Ok(is_atom(scope, *argument, *of) && is_exn(types, ty))
        }
        Operation::Record { ty: of, fields } => {
            if *of != ty {
                return Ok(false);
            }
            let yes = makes(alloc, tables, scope, fields, ty)?;
            Ok(yes)
        }
        Operation::Select {
            ty: of,
            label,
            record,
        } => Ok(is_atom(scope, *record, *of) && is_field_of(types, *of, *label, ty)),
        Operation::Primitive(primitive, u) => Ok(is_primitive(types, *primitive, *u, ty)),
        Operation::Perform {
            place: _,
            primitive,
            ty: u,
            arguments,
        } => {
            let yes = does_perform(alloc, tables, scope, *primitive, *u, arguments, ty)?;
            Ok(yes)
        }
        Operation::Apply {
            place: _,
            function,
            argument,
        } => Ok(applies(types, scope, *function, *argument, ty)),
        Operation::Raise(packet) => Ok(is_packet(types, scope, *packet)),
        Operation::RaiseInitial(number) => Ok(*number < 7),
    }
}
