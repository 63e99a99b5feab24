// Operations that hold no expression.
ghost use Rattle.std.specs.Prelude.{◌≡◌, ◌↔◌, [], List, map, true, Some, ℕ, IsTrue, IfOk};
ghost use Rattle.std.specs.Option.{option_map};
ghost use Rattle.mlc_names.specs.declared.label.Label.{Label as AnyLabel};
ghost use Rattle.ty_core.specs.Types.{Typ};
ghost use Rattle.ty_core.specs.Marks.{Allows};
ghost use Rattle.ty_table.specs.TypeAt.{type_at};
ghost use Rattle.ir_poly.specs.Tests.{inst};
ghost use Rattle.ir_poly.specs.Types.{admits_in, arguments_at, ascend, function_type, labels_in, prim_type, ref_type, result_at, row_type};
ghost use Rattle.ir_poly.specs.TestsChecked.{exn_type, HasConstructor};
ghost use Rattle.ir_known.specs.Knows.{marks_of};
ghost use Rattle.record_order.specs.of_ir_uses.Fields.{HasField};
ghost use Rattle.plain_tree.specs.TreeOf.{atoms_of, operation_of, row_of};
ghost use Rattle.record_order.specs.Order.{AreOrders};
ghost use Rattle.tests_check.specs.Fits.{AtomFits, AtomsFit, ExceptionFits, OpFits, RowFits};
ghost use Rattle.tests_check.specs.Reads.{reading};
ghost use Rattle.tests_check.specs.Walk.{all, local, table_of};

use crate::atom::{atom_type, is_atom, push_atom_types, push_field_types};
use ir_known::ask::{is_function, is_reference, result_from, same_type};
use ir_known::scope::Scope;
use ir_known::stack::Stack;
use ir_tables::tables::Tables;
use mlc_base::memory::NoMemory;
use mlc_names::label::Label;
use mlc_prims::basis::BasisPrimitive;
use plain_tree::tree::{Field, Operation};
use record_order::facts::Facts;
use record_order::ir_uses::constructor::{has_constructor, is_alone};
use record_order::ir_uses::exception::{is_exception, is_initial};
use record_order::ir_uses::literal::has_literal;
use record_order::ir_uses::primitive::{admits_type, gives, is_primitive_value, takes};
use record_order::ir_uses::record::{do_ascend, is_record};
use record_order::ir_uses::using::use_fits;
use record_order::orders::Orders;
use std::alloc::Global;
use ty_core::mark::Mark;
use ty_table::types::Types;

/// Whether a constructor of values of a type takes this atom.
fn takes_atom(
    alloc: Global,
    tables: &Tables,
    scope: &Scope,
    constructor: usize,
    argument: usize,
    ty: usize,
) -> Result<bool, NoMemory>
    ensures { IfOk result (λ yes. IsTrue yes ↔ ((a : Typ) × HasConstructor (table_of tables.now) constructor (type_at tables.now.types ty) (Some a)
        × AtomFits (local tables.now scope.now) (inst argument []) a)) }
{
    match atom_type(tables, scope, argument) {
        Some(found) => {
            let yes = has_constructor(alloc, tables, constructor, ty, Some(found))?;
            Ok(yes)
        }
        None => Ok(false),
    }
}

/// Whether values of a type, the one that is written, are made of a constructor and this atom.
fn constructs(
    alloc: Global,
    tables: &Tables,
    scope: &Scope,
    constructor: usize,
    of: usize,
    argument: usize,
    ty: usize,
) -> Result<bool, NoMemory>
    ensures { IfOk result (λ yes. IsTrue yes ↔ ((type_at tables.now.types of ≡ type_at tables.now.types ty)
        × ((a : Typ) × HasConstructor (table_of tables.now) constructor (type_at tables.now.types ty) (Some a)
        × AtomFits (local tables.now scope.now) (inst argument []) a))) }
{
    if !same_type(&tables.types, of, ty) {
        return Ok(false);
    }
    let yes = takes_atom(alloc, tables, scope, constructor, argument, ty)?;
    Ok(yes)
}

/// Whether a type is that of functions from what is held to references to it.
fn is_maker(types: &Types, held: usize, ty: usize) -> bool
    ensures { IsTrue result ↔ (type_at types.now ty ≡ function_type (type_at types.now held) (ref_type (type_at types.now held))) }
{
    match result_from(types, ty, held) {
        Some(made) => is_reference(types, made, held),
        None => false,
    }
}

/// Whether a reference to an atom of a type is of another.
fn refers(tables: &Tables, scope: &Scope, held: usize, argument: usize, ty: usize) -> bool
    ensures { IsTrue result ↔ (AtomFits (local tables.now scope.now) (inst argument []) (type_at tables.now.types held)
        × (type_at tables.now.types ty ≡ ref_type (type_at tables.now.types held))) }
{
    if !is_atom(tables, scope, argument, held) {
        return false;
    }
    is_reference(&tables.types, ty, held)
}

/// Whether an atom is a reference to values of a type.
fn is_reference_atom(tables: &Tables, scope: &Scope, reference: usize, held: usize) -> bool
    ensures { IsTrue result ↔ AtomFits (local tables.now scope.now) (inst reference []) (ref_type (type_at tables.now.types held)) }
{
    match atom_type(tables, scope, reference) {
        Some(found) => is_reference(&tables.types, found, held),
        None => false,
    }
}

/// Whether what a reference holds is of a type, the one that is written.
fn holds(tables: &Tables, scope: &Scope, of: usize, reference: usize, ty: usize) -> bool
    ensures { IsTrue result ↔ ((type_at tables.now.types of ≡ type_at tables.now.types ty)
        × AtomFits (local tables.now scope.now) (inst reference []) (ref_type (type_at tables.now.types ty))) }
{
    if !same_type(&tables.types, of, ty) {
        return false;
    }
    is_reference_atom(tables, scope, reference, ty)
}

/// Whether a variable is an exception of this argument, bound in the same function.
pub fn is_local_exception(
    tables: &Tables,
    scope: &Scope,
    exception: usize,
    argument: Option<usize>,
) -> bool
    ensures { IsTrue result ↔ ExceptionFits (local tables.now scope.now) (inst exception []) (option_map (type_at tables.now.types) argument) }
{
    is_exception(&tables.types, scope.find_local(exception), argument)
}

/// Whether a packet of an exception and this atom is of a type.
fn packs(
    tables: &Tables,
    exn: usize,
    scope: &Scope,
    of: usize,
    exception: usize,
    argument: usize,
    ty: usize,
) -> bool
    requires { type_at tables.now.types exn ≡ exn_type }
    ensures { IsTrue result ↔ (ExceptionFits (local tables.now scope.now) (inst exception []) (Some (type_at tables.now.types of))
        × AtomFits (local tables.now scope.now) (inst argument []) (type_at tables.now.types of) × (type_at tables.now.types ty ≡ exn_type)) }
{
    if !is_local_exception(tables, scope, exception, Some(of)) {
        return false;
    }
    if !is_atom(tables, scope, argument, of) {
        return false;
    }
    same_type(&tables.types, ty, exn)
}

/// Whether fields make a record of a type.
fn are_fields(
    alloc: Global,
    tables: &Tables,
    scope: &Scope,
    fields: &[Field],
    ty: usize,
) -> Result<bool, NoMemory>
    ensures { IfOk result (λ yes. IsTrue yes ↔ ((r : List (AnyLabel × Typ)) × RowFits (local tables.now scope.now) (row_of (reading tables.now) fields.now) r
        × (type_at tables.now.types ty ≡ row_type r) × (ascend (labels_in r) ≡ true))) }
{
    let mut found = Vec::new(alloc);
    let yes = push_field_types(tables, scope, fields, &mut found)?;
    if !yes {
        return Ok(false);
    }
    if !is_record(&tables.types, ty, &found) {
        return Ok(false);
    }
    Ok(do_ascend(&found))
}

/// Whether fields make a record of a type, the one that is written.
fn makes(
    alloc: Global,
    tables: &Tables,
    scope: &Scope,
    of: usize,
    fields: &[Field],
    ty: usize,
) -> Result<bool, NoMemory>
    ensures { IfOk result (λ yes. IsTrue yes ↔ ((type_at tables.now.types of ≡ type_at tables.now.types ty)
        × ((r : List (AnyLabel × Typ)) × RowFits (local tables.now scope.now) (row_of (reading tables.now) fields.now) r
        × (type_at tables.now.types ty ≡ row_type r) × (ascend (labels_in r) ≡ true)))) }
{
    if !same_type(&tables.types, of, ty) {
        return Ok(false);
    }
    let yes = are_fields(alloc, tables, scope, fields, ty)?;
    Ok(yes)
}

/// Whether a field of an atom that is a record is of a type.
fn selects(
    tables: &Tables,
    orders: &Orders,
    scope: &Scope,
    of: usize,
    label: Label,
    atom: usize,
    ty: usize,
) -> bool
    requires { AreOrders tables.now.types orders.now }
    ensures { IsTrue result ↔ (AtomFits (local tables.now scope.now) (inst atom []) (type_at tables.now.types of)
        × HasField label (type_at tables.now.types of) (type_at tables.now.types ty)) }
{
    if !is_atom(tables, scope, atom, of) {
        return false;
    }
    orders.is_selected(&tables.types, of, label, ty)
}

/// Whether a primitive takes these atoms at a type.
fn takes_atoms(
    alloc: Global,
    tables: &Tables,
    scope: &Scope,
    primitive: BasisPrimitive,
    of: usize,
    arguments: &[usize],
) -> Result<bool, NoMemory>
    ensures { IfOk result (λ yes. IsTrue yes ↔ AtomsFit (local tables.now scope.now) (atoms_of (reading tables.now) arguments.now)
        (arguments_at primitive (type_at tables.now.types of))) }
{
    let mut found = Vec::new(alloc);
    let yes = push_atom_types(tables, scope, arguments, &mut found)?;
    if !yes {
        return Ok(false);
    }
    Ok(takes(&tables.types, primitive, of, &found))
}

/// Whether a primitive at a type that its parameter may stand for takes these atoms and gives a type.
fn performs(
    alloc: Global,
    tables: &Tables,
    marks: &Stack<Mark>,
    scope: &Scope,
    primitive: BasisPrimitive,
    of: usize,
    arguments: &[usize],
    ty: usize,
) -> Result<bool, NoMemory>
    ensures { IfOk result (λ yes. IsTrue yes ↔ (Allows (prim_type primitive).mark (admits_in (marks_of marks.now)) (type_at tables.now.types of)
        × AtomsFit (local tables.now scope.now) (atoms_of (reading tables.now) arguments.now) (arguments_at primitive (type_at tables.now.types of))
        × (type_at tables.now.types ty ≡ result_at primitive (type_at tables.now.types of)))) }
{
    let admitted = admits_type(alloc, &tables.types, marks, primitive, of)?;
    if !admitted {
        return Ok(false);
    }
    let taken = takes_atoms(alloc, tables, scope, primitive, of, arguments)?;
    if !taken {
        return Ok(false);
    }
    Ok(gives(&tables.types, primitive, of, ty))
}

/// Whether a function takes an argument and gives a type.
fn applies(tables: &Tables, scope: &Scope, function: usize, argument: usize, ty: usize) -> bool
    ensures { IsTrue result ↔ ((v : Typ) × AtomFits (local tables.now scope.now) (inst argument []) v
        × AtomFits (local tables.now scope.now) (inst function []) (function_type v (type_at tables.now.types ty))) }
{
    match atom_type(tables, scope, argument) {
        Some(taken) => match atom_type(tables, scope, function) {
            Some(found) => is_function(&tables.types, found, taken, ty),
            None => false,
        },
        None => false,
    }
}

/// Whether an operation is of a type.
pub fn is_operation(
    alloc: Global,
    tables: &Tables,
    facts: &Facts,
    marks: &Stack<Mark>,
    scope: &Scope,
    operation: &Operation,
    ty: usize,
) -> Result<bool, NoMemory>
    requires exn { type_at tables.now.types facts.now.exn ≡ exn_type }
    requires orders { AreOrders tables.now.types facts.now.orders }
    ensures { IfOk result (λ yes. IsTrue yes ↔ OpFits (table_of tables.now) (marks_of marks.now) (all tables.now scope.now) (local tables.now scope.now)
        (operation_of (reading tables.now) operation.now) (type_at tables.now.types ty)) }
{
    let types = &tables.types;
    match operation {
        Operation::Use(variable, at) => {
            let known = scope.find(*variable);
            let yes = use_fits(alloc, tables, marks, known, at, ty)?;
            Ok(yes)
        }
        Operation::Constant(constant) => Ok(has_literal(types, *constant, ty)),
        Operation::Constructor {
            constructor,
            ty: of,
        } => {
            let yes = is_alone(alloc, tables, *constructor, *of, ty)?;
            Ok(yes)
        }
        Operation::Construct {
            place: _,
            constructor,
            ty: of,
            argument,
        } => {
            let yes = constructs(alloc, tables, scope, *constructor, *of, *argument, ty)?;
            Ok(yes)
        }
        Operation::Reference(held) => Ok(is_maker(types, *held, ty)),
        Operation::Refer {
            place: _,
            ty: held,
            argument,
        } => Ok(refers(tables, scope, *held, *argument, ty)),
        Operation::Content { ty: of, reference } => Ok(holds(tables, scope, *of, *reference, ty)),
        Operation::Pack {
            place: _,
            ty: of,
            exception,
            argument,
        } => Ok(packs(tables, facts.exn, scope, *of, *exception, *argument, ty)),
        Operation::Record { ty: of, fields } => {
            let yes = makes(alloc, tables, scope, *of, fields, ty)?;
            Ok(yes)
        }
        Operation::Select {
            ty: of,
            label,
            record,
        } => Ok(selects(tables, &facts.orders, scope, *of, *label, *record, ty)),
        Operation::Primitive(primitive, of) => {
            let yes = is_primitive_value(alloc, types, marks, *primitive, *of, ty)?;
            Ok(yes)
        }
        Operation::Perform {
            place: _,
            primitive,
            ty: of,
            arguments,
        } => {
            let yes = performs(alloc, tables, marks, scope, *primitive, *of, arguments, ty)?;
            Ok(yes)
        }
        Operation::Apply {
            place: _,
            function,
            argument,
        } => Ok(applies(tables, scope, *function, *argument, ty)),
        Operation::Raise(packet) => Ok(is_atom(tables, scope, *packet, facts.exn)),
        Operation::RaiseInitial(number) => Ok(is_initial(*number)),
    }
}
