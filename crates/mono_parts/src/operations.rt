// Operations that hold no expression.
ghost use Rattle.std.specs.Prelude.{◌≡◌, ◌≢◌, ℕ, List, Option, None, Some, [], ◌∷◌, if◌then◌else◌, map, IfOk};
ghost use Rattle.std.specs.Option.{option_map};
ghost use Rattle.ty_core.specs.Types.{Typ};
ghost use Rattle.ty_core.specs.Statics.{replace};
ghost use Rattle.ty_table.specs.TypeAt.{type_at};
ghost use Rattle.ir_tables.specs.Tables.{strings_of};
ghost use Rattle.plain_tree.specs.TreeOf.{operation_of, row_of, atoms_of};
ghost use Rattle.ir_tables.specs.declared.tables.Tables.{Tables};
ghost use Rattle.tests_check.specs.Reads.{reading};
ghost use Rattle.monomorphise.specs.Monomorphise.{copy_of, copy_row, copy_atoms, row_needs, atoms_needs, op_copy, op_needs};
ghost use Rattle.mono_close.specs.Closing.{standing};
ghost use Rattle.mono_state.specs.of_mono_words.Words.{spell_row, spell_atoms};
ghost use Rattle.mono_state.specs.of_mono_words.Made.{op_made, turned_op};
ghost use Rattle.mono_state.specs.of_mono_words.Seen.{with_needs, with_compared, made};
ghost use Rattle.mono_state.specs.Seen.{Held, held_of, Later, name_in, groups_in, seen, sign_of_act};
ghost use Rattle.mono_state.specs.Going.{IsOpen, IsRight, Goes};
ghost use Rattle.mono_parts.specs.Operations.{type_in, first_in, second_in, act_with, IfType, IfName, FirstIs, first_needs, if_needs, own_needs, own_sign, list_made, compared_in};

use ir_tables::tables::Tables;
use mlc_base::memory::NoMemory;
use mlc_base::place::Place;
use mlc_prims::basis::BasisPrimitive;
use mono_state::copier::Copier;
use mono_state::names::{atom, type_of, used};
use mono_state::word::{Act, Word};
use plain_tree::tree::{Field, Operation};
use std::alloc::Global;

/// The type that an operation says, if it says one.
fn type_said(operation: &Operation) -> Option<usize>
    ensures { result ≡ type_in operation.now }
{
    match operation {
        Operation::Constructor { constructor: _, ty } => Some(*ty),
        Operation::Construct {
            place: _,
            constructor: _,
            ty,
            argument: _,
        } => Some(*ty),
        Operation::Reference(ty) => Some(*ty),
        Operation::Refer {
            place: _,
            ty,
            argument: _,
        } => Some(*ty),
        Operation::Content { ty, reference: _ } => Some(*ty),
        Operation::Pack {
            place: _,
            ty,
            exception: _,
            argument: _,
        } => Some(*ty),
        Operation::Record { ty, fields: _ } => Some(*ty),
        Operation::Select {
            ty,
            label: _,
            record: _,
        } => Some(*ty),
        Operation::Primitive(_, ty) => Some(*ty),
        Operation::Perform {
            place: _,
            primitive: _,
            ty,
            arguments: _,
        } => Some(*ty),
        _ => None,
    }
}

/// The atom that an operation says first, if it says one beside lists.
fn first_said(operation: &Operation) -> Option<usize>
    ensures { result ≡ first_in operation.now }
{
    match operation {
        Operation::Construct {
            place: _,
            constructor: _,
            ty: _,
            argument,
        } => Some(*argument),
        Operation::Refer {
            place: _,
            ty: _,
            argument,
        } => Some(*argument),
        Operation::Content { ty: _, reference } => Some(*reference),
        Operation::Pack {
            place: _,
            ty: _,
            exception,
            argument: _,
        } => Some(*exception),
        Operation::Select {
            ty: _,
            label: _,
            record,
        } => Some(*record),
        Operation::Apply {
            place: _,
            function,
            argument: _,
        } => Some(*function),
        Operation::Raise(variable) => Some(*variable),
        _ => None,
    }
}

/// The atom that an operation says behind another one.
fn second_said(operation: &Operation) -> Option<usize>
    ensures { result ≡ second_in operation.now }
{
    match operation {
        Operation::Pack {
            place: _,
            ty: _,
            exception: _,
            argument,
        } => Some(*argument),
        Operation::Apply {
            place: _,
            function: _,
            argument,
        } => Some(*argument),
        _ => None,
    }
}

fn unless(strip: bool, place: Option<Place>) -> Option<Place>
    ensures { result ≡ (if strip then None else place) }
{
    if strip { None } else { place }
}

/// The operation with a copy's type and atoms; without turns where they are taken away.
fn with_parts(operation: &Operation, strip: bool, ty: usize, first: usize, second: usize) -> Act
    ensures { result ≡ act_with operation.now strip ty first second }
{
    match operation {
        Operation::Use(_, _) => Act::Use(first),
        Operation::Constant(c) => Act::Constant(*c),
        Operation::Constructor { constructor, ty: _ } => Act::Constructor {
            constructor: *constructor,
            ty,
        },
        Operation::Construct {
            place,
            constructor,
            ty: _,
            argument: _,
        } => Act::Construct {
            place: unless(strip, *place),
            constructor: *constructor,
            ty,
            argument: first,
        },
        Operation::Reference(_) => Act::Reference(ty),
        Operation::Refer {
            place,
            ty: _,
            argument: _,
        } => Act::Refer {
            place: *place,
            ty,
            argument: first,
        },
        Operation::Content {
            ty: _,
            reference: _,
        } => Act::Content {
            ty,
            reference: first,
        },
        Operation::Pack {
            place,
            ty: _,
            exception: _,
            argument: _,
        } => Act::Pack {
            place: unless(strip, *place),
            ty,
            exception: first,
            argument: second,
        },
        Operation::Record { ty: _, fields: _ } => Act::Record(ty),
        Operation::Select {
            ty: _,
            label,
            record: _,
        } => Act::Select {
            ty,
            label: *label,
            record: first,
        },
        Operation::Primitive(primitive, _) => Act::Primitive(*primitive, ty),
        Operation::Perform {
            place,
            primitive,
            ty: _,
            arguments: _,
        } => Act::Perform {
            place: *place,
            primitive: *primitive,
            ty,
        },
        Operation::Apply {
            place,
            function: _,
            argument: _,
        } => Act::Apply {
            place: *place,
            function: first,
            argument: second,
        },
        Operation::Raise(_) => Act::Raise(first),
        Operation::RaiseInitial(n) => Act::RaiseInitial(*n),
    }
}

/// A copy's type, if there is one; else 0.
fn type_if(
    alloc: Global,
    tables: &Tables,
    copier: &mut Copier,
    ty: Option<usize>,
) -> Result<usize, NoMemory>
    requires is_open { IsOpen copier.old }
    requires right { IsRight tables.now.types copier.old }
    ensures goes { IfOk result (λ _. Goes tables.now.types copier.old copier.new) }
    ensures stays { IfOk result (λ _. (ss : List (List ℕ)) (H : Held) → seen ss H copier.new ≡ seen ss H copier.old) }
    ensures is { IfOk result (λ n. (H : Held) → Later (held_of copier.new) H → IfType H (standing H.types copier.old.slots) tables.now.types ty n) }
{
    match ty {
        Some(ty) => type_of(alloc, tables, copier, ty),
        None => Ok(0),
    }
}

/// A copy's atom, if there is one; else 0.
fn atom_if(copier: &mut Copier, variable: Option<usize>) -> Result<usize, NoMemory>
    requires { IsOpen copier.old }
    ensures goes { IfOk result (λ _. (sources : List Typ) → Goes sources copier.old copier.new) }
    ensures noted { IfOk result (λ _. (ss : List (List ℕ)) (H : Held) → Later (held_of copier.new) H
        → seen ss H copier.new ≡ with_needs (if_needs variable) (seen ss H copier.old)) }
    ensures is { IfOk result (λ n. (H : Held) → Later (held_of copier.new) H → IfName H variable n) }
{
    match variable {
        Some(variable) => atom(copier, variable),
        None => Ok(0),
    }
}

/// The copy that an operation says first: of a variable at types, or of an atom.
fn first_copy(
    alloc: Global,
    tables: &Tables,
    copier: &mut Copier,
    operation: &Operation,
) -> Result<usize, NoMemory>
    requires is_open { IsOpen copier.old }
    requires right { IsRight tables.now.types copier.old }
    ensures goes { IfOk result (λ _. Goes tables.now.types copier.old copier.new) }
    ensures noted { IfOk result (λ _. (ss : List (List ℕ)) (H : Held) → Later (held_of copier.new) H → seen ss H copier.new
        ≡ with_needs (first_needs tables.now (groups_in H copier.old.own) (standing H.types copier.old.slots) operation.now) (seen ss H copier.old)) }
    ensures is { IfOk result (λ n. (H : Held) → Later (held_of copier.new) H
        → FirstIs H tables.now (groups_in H copier.old.own) (standing H.types copier.old.slots) operation.now n) }
{
    match operation {
        Operation::Use(variable, types) => used(alloc, tables, copier, *variable, types),
        _ => atom_if(copier, first_said(operation)),
    }
}

/// An operation, but for lists of atoms.
fn act_of(
    alloc: Global,
    tables: &Tables,
    copier: &mut Copier,
    operation: &Operation,
    strip: bool,
) -> Result<Act, NoMemory>
    requires is_open { IsOpen copier.old }
    requires right { IsRight tables.now.types copier.old }
    ensures goes { IfOk result (λ _. Goes tables.now.types copier.old copier.new) }
    ensures noted { IfOk result (λ _. (ss : List (List ℕ)) (H : Held) → Later (held_of copier.new) H → seen ss H copier.new
        ≡ with_needs (own_needs tables.now (groups_in H copier.old.own) (standing H.types copier.old.slots) operation.now) (seen ss H copier.old)) }
    ensures is { IfOk result (λ act. (H : Held) → Later (held_of copier.new) H → sign_of_act (strings_of tables.now) H act
        ≡ own_sign (turned_op strip (op_copy (groups_in H copier.old.own) (standing H.types copier.old.slots) (operation_of (reading tables.now) operation.now)))) }
{
    let ty = type_if(alloc, tables, copier, type_said(operation))?;
    let second = atom_if(copier, second_said(operation))?;
    let first = first_copy(alloc, tables, copier, operation)?;
    Ok(with_parts(operation, strip, ty, first, second))
}

/// The fields of a record, from the last to the first, in front of an end.
fn put_fields(copier: &mut Copier, fields: &[Field]) -> Result<(), NoMemory>
    requires { IsOpen copier.old }
    ensures goes { IfOk result (λ _. (sources : List Typ) → Goes sources copier.old copier.new) }
    ensures made { IfOk result (λ _. (t : Tables) (ss : List (List ℕ)) (H : Held) → Later (held_of copier.new) H → seen ss H copier.new
        ≡ made (spell_row (copy_row (row_of (reading t) fields.now))) (row_needs (row_of (reading t) fields.now)) [] 0 (seen ss H copier.old)) }
{
    copier.put(&Word::End)?;
    let mut left = fields.len();
    while left > 0 {
        left -= 1;
        let label = fields[left].label;
        let k = atom(copier, fields[left].atom)?;
        copier.put(&Word::Field(Field { label, atom: k }))?;
    }
    Ok(())
}

/// Arguments, from the last to the first, in front of an end.
fn put_arguments(copier: &mut Copier, arguments: &[usize]) -> Result<(), NoMemory>
    requires { IsOpen copier.old }
    ensures goes { IfOk result (λ _. (sources : List Typ) → Goes sources copier.old copier.new) }
    ensures made { IfOk result (λ _. (t : Tables) (ss : List (List ℕ)) (H : Held) → Later (held_of copier.new) H → seen ss H copier.new
        ≡ made (spell_atoms (copy_atoms (atoms_of (reading t) arguments.now))) (atoms_needs (atoms_of (reading t) arguments.now)) [] 0 (seen ss H copier.old)) }
{
    copier.put(&Word::End)?;
    let mut left = arguments.len();
    while left > 0 {
        left -= 1;
        let k = atom(copier, arguments[left])?;
        copier.put(&Word::Argument(k))?;
    }
    Ok(())
}

/// The list of atoms of an operation, if it has one.
fn put_list(copier: &mut Copier, operation: &Operation) -> Result<(), NoMemory>
    requires { IsOpen copier.old }
    ensures goes { IfOk result (λ _. (sources : List Typ) → Goes sources copier.old copier.new) }
    ensures made { IfOk result (λ _. (t : Tables) (ss : List (List ℕ)) (H : Held) → Later (held_of copier.new) H
        → seen ss H copier.new ≡ list_made t operation.now (seen ss H copier.old)) }
{
    match operation {
        Operation::Record { ty: _, fields } => put_fields(copier, fields),
        Operation::Perform {
            place: _,
            primitive: _,
            ty: _,
            arguments,
        } => put_arguments(copier, arguments),
        _ => Ok(()),
    }
}

/// Notes the type at which values are compared.
fn note_compared(copier: &mut Copier, act: &Act) -> Result<(), NoMemory>
    requires { IsOpen copier.old }
    ensures goes { IfOk result (λ _. (sources : List Typ) → Goes sources copier.old copier.new) }
    ensures noted { IfOk result (λ _. (ss : List (List ℕ)) (H : Held) → seen ss H copier.new ≡ with_compared (compared_in H act.now) (seen ss H copier.old)) }
{
    match act {
        Act::Primitive(BasisPrimitive::Equals, ty) => {
            copier.compared.push(*ty)?;
            Ok(())
        }
        Act::Perform {
            place: _,
            primitive: BasisPrimitive::Equals,
            ty,
        } => {
            copier.compared.push(*ty)?;
            Ok(())
        }
        _ => Ok(()),
    }
}

/// The words of an operation.
pub fn put_operation(
    alloc: Global,
    tables: &Tables,
    copier: &mut Copier,
    operation: &Operation,
    strip: bool,
) -> Result<(), NoMemory>
    requires is_open { IsOpen copier.old }
    requires right { IsRight tables.now.types copier.old }
    ensures goes { IfOk result (λ _. Goes tables.now.types copier.old copier.new) }
    ensures made { IfOk result (λ _. (H : Held) → Later (held_of copier.new) H → seen (strings_of tables.now) H copier.new
        ≡ op_made strip (groups_in H copier.old.own) (standing H.types copier.old.slots) (operation_of (reading tables.now) operation.now)
        (seen (strings_of tables.now) H copier.old)) }
{
    put_list(copier, operation)?;
    let act = act_of(alloc, tables, copier, operation, strip)?;
    note_compared(copier, &act)?;
    copier.put(&Word::Act(act))
}
