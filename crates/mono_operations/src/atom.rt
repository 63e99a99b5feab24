// Atoms: variables that are bound in the same function; and exceptions' names.
ghost use Rattle.std.specs.Prelude.{◌≡◌, ◌++◌, ◌&&◌, List, nat_eq, true, IfOk, map};
ghost use Rattle.std.specs.Option.{option_map, option_and_then};
ghost use Rattle.std.specs.Map.{lookup};
ghost use Rattle.plain_tree.specs.TreeOf.{atoms_of, row_of, exception_of};
ghost use Rattle.ir_mono.specs.Typing.{sort_of};
ghost use Rattle.ir_values.specs.Values.{same_label};
ghost use Rattle.mono_uses.specs.of_mono_fits.Asked.{same_argument};
ghost use Rattle.mono_uses.specs.of_mono_fits.Fits.{type_in, argument_in, type_of, argument_of, is_atom, is_exception_of, types_of, row_fits, name_argument};
ghost use Rattle.mono_operations.specs.Reads.{reading, sort_in, local, all};
ghost use Rattle.mono_operations.specs.declared.tables.Tables.{Tables};

use ir_known::known::Known;
use ir_known::scope::Scope;
use mlc_base::memory::NoMemory;
use mlc_names::label::Label;
use mono_uses::ask::same_type;
use mono_uses::label::is_label;
use plain_tree::tree::{Exception, Field};
use std::alloc::Global;

/// The type of what is known, if it is of one.
fn known_type(known: Known) -> Option<usize>
    ensures { result ≡ type_in (sort_in known) }
{
    match known {
        Known::OfType(ty) => Some(ty),
        Known::General { parameters: _, ty } => Some(ty),
        Known::Own(ty) => Some(ty),
        Known::Exception(_) => None,
    }
}

/// The argument of what is known, if it is an exception.
fn known_argument(known: Known) -> Option<Option<usize>>
    ensures { result ≡ argument_in (sort_in known) }
{
    match known {
        Known::OfType(_) => None,
        Known::General {
            parameters: _,
            ty: _,
        } => None,
        Known::Own(_) => None,
        Known::Exception(argument) => Some(argument),
    }
}

fn found_type(known: Option<Known>) -> Option<usize>
    ensures { result ≡ option_and_then (λ k. type_in (sort_in k)) known }
{
    match known {
        Some(found) => known_type(found),
        None => None,
    }
}

fn found_argument(known: Option<Known>) -> Option<Option<usize>>
    ensures { result ≡ option_and_then (λ k. argument_in (sort_in k)) known }
{
    match known {
        Some(found) => known_argument(found),
        None => None,
    }
}

/// The type of an atom.
pub fn atom_type(scope: &Scope, atom: usize) -> Option<usize>
    ensures { result ≡ type_of (local scope.now) atom }
{
    found_type(scope.find_local(atom))
}

/// The argument of the exception that an atom stands for.
pub fn atom_argument(scope: &Scope, atom: usize) -> Option<Option<usize>>
    ensures { result ≡ argument_of (local scope.now) atom }
{
    found_argument(scope.find_local(atom))
}

/// The argument of the exception that a variable in scope stands for.
pub fn held_argument(scope: &Scope, variable: usize) -> Option<Option<usize>>
    ensures { result ≡ argument_of (all scope.now) variable }
{
    found_argument(scope.find(variable))
}

/// Whether an atom is of a type.
pub fn is_atom(scope: &Scope, atom: usize, ty: usize) -> bool
    ensures { result ≡ is_atom (local scope.now) atom ty }
{
    match atom_type(scope, atom) {
        Some(found) => ty == found,
        None => false,
    }
}

/// Whether an atom stands for an exception with this argument.
pub fn is_exception_of(scope: &Scope, atom: usize, argument: Option<usize>) -> bool
    ensures { result ≡ is_exception_of (local scope.now) atom argument }
{
    match atom_argument(scope, atom) {
        Some(found) => same_type(argument, found),
        None => false,
    }
}

/// The argument of an exception that is named.
pub fn name_argument(scope: &Scope, named: Exception) -> Option<Option<usize>>
    ensures { (t : Tables) → result ≡ name_argument t.types t.exn (all scope.now) (exception_of (reading t) named) }
{
    match named {
        Exception::Initial(number) => { if number < 7 { Some(None) } else { None } }
        Exception::Held(variable) => held_argument(scope, variable),
    }
}

/// The types of atoms, if each has one.
pub fn atom_types(
    alloc: Global,
    scope: &Scope,
    atoms: &[usize],
) -> Result<Option<Vec<usize>>, NoMemory>
    ensures { (t : Tables) → IfOk result (λ found. option_map (λ v. v.items) found ≡ types_of t.types t.exn (local scope.now) (atoms_of (reading t) atoms.now)) }
{
    let mut found = Vec::new(alloc);
    for i in 0..atoms.len() {
        let atom = atoms[i];
        match atom_type(scope, atom) {
            Some(ty) => found.push(ty)?,
            None => return Ok(None),
        }
    }
    Ok(Some(found))
}

/// Whether a field has a label, and its atom a type.
fn is_field(scope: &Scope, field: Field, label: &Label, ty: usize) -> bool
    ensures { result ≡ (same_label field.label label.now && is_atom (local scope.now) field.atom ty) }
{
    is_label(&field.label, label) && is_atom(scope, field.atom, ty)
}

/// Whether fields have these labels, and their atoms these types.
pub fn fields_fit(scope: &Scope, fields: &[Field], labels: &[Label], parts: &[usize]) -> bool
    ensures { (t : Tables) → result ≡ row_fits t.types t.exn (local scope.now) (row_of (reading t) fields.now) labels.now parts.now }
{
    if fields.len() != labels.len() {
        return false;
    }
    if fields.len() != parts.len() {
        return false;
    }
    for i in 0..fields.len() {
        let fits = is_field(scope, fields[i], &labels[i], parts[i]);
        if !fits {
            return false;
        }
    }
    true
}
