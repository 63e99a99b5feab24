// Types and names of copies.
ghost use Rattle.std.specs.Prelude.{◌≡◌, ℕ, List, [], ◌∷◌, Some, None, map, nat_eq, length, take, slice_get, get_or, drop, ◌-◌, ◌<◌, ◌++◌, IfOk};
ghost use Rattle.indexmap.specs.IndexMap.{get};
ghost use Rattle.ty_core.specs.Types.{Typ};
ghost use Rattle.ty_core.specs.Statics.{replace};
ghost use Rattle.ty_table.specs.TypeAt.{type_at, AllBelow};
ghost use Rattle.ir_poly.specs.Tests.{inst};
ghost use Rattle.monomorphise.specs.Monomorphise as mono;
ghost use Rattle.monomorphise.specs.Monomorphise.{copy_of, of_class, unit_for, units};
ghost use Rattle.mono_close.specs.Closing.{standing};
ghost use Rattle.mono_words.specs.Seen.{with_needs};
ghost use Rattle.mono_state.specs.Seen.{Held, held_of, Later, types_in, name_in, groups_in, seen};
ghost use Rattle.mono_state.specs.Going.{IsHeld, IsOpen, IsRight, Goes, Stands, slots_for};
ghost use Rattle.ty_core.specs.declared.name.TyName.{TyName};
ghost use Rattle.ty_basis.specs.Types.{of_name};

use crate::copier::{Copier, NOTHING};
use indexmap::IndexMap;
use ir_tables::tables::Tables;
use mlc_base::memory::NoMemory;
use mono_close::close::close_type;
use mono_names::lists::Lists;
use scoped_map::scoped::Scoped;
use std::alloc::Global;
use ty_core::mark::{Class, Mark};
use ty_core::name::TyName;
use ty_core::scheme::Quantified;
use ty_core::ty::Head;
use ty_table::types::Types;

/// A type, with what its variables stand for.
pub fn type_of(
    alloc: Global,
    tables: &Tables,
    copier: &mut Copier,
    ty: usize,
) -> Result<usize, NoMemory>
    requires is_open { IsOpen copier.old }
    requires right { IsRight tables.now.types copier.old }
    ensures goes { IfOk result (λ _. Goes tables.now.types copier.old copier.new) }
    ensures stays { IfOk result (λ _. (ss : List (List ℕ)) (H : Held) → seen ss H copier.new ≡ seen ss H copier.old) }
    ensures is { IfOk result (λ n. (H : Held) → Later (held_of copier.new) H
        → type_at H.types n ≡ replace (standing H.types copier.old.slots) (type_at tables.now.types ty)) }
    ensures held { IfOk result (λ n. n < length copier.new.closed) }
{
    close_type(
        alloc,
        &tables.types,
        &copier.slots,
        &mut copier.known,
        &mut copier.closed,
        ty,
    )
}

/// A variable's copy at a list of types.
pub fn copy_at(copier: &mut Copier, variable: usize, list: usize) -> Result<usize, NoMemory>
    requires { IsOpen copier.old }
    ensures goes { IfOk result (λ _. (sources : List Typ) → Goes sources copier.old copier.new) }
    ensures stays { IfOk result (λ _. (ss : List (List ℕ)) (H : Held) → seen ss H copier.new ≡ seen ss H copier.old) }
    ensures is { IfOk result (λ n. (H : Held) → Later (held_of copier.new) H → name_in H n ≡ copy_of variable (types_in H list)) }
{
    copier.copies.number(variable, list)
}

/// The name of a variable that is copied at no types.
pub fn alone(copier: &mut Copier, variable: usize) -> Result<usize, NoMemory>
    requires { IsOpen copier.old }
    ensures goes { IfOk result (λ _. (sources : List Typ) → Goes sources copier.old copier.new) }
    ensures stays { IfOk result (λ _. (ss : List (List ℕ)) (H : Held) → seen ss H copier.new ≡ seen ss H copier.old) }
    ensures is { IfOk result (λ n. (H : Held) → Later (held_of copier.new) H → name_in H n ≡ copy_of variable []) }
{
    copy_at(copier, variable, NOTHING)
}

/// A copy of the variable at this list is needed.
fn note(copier: &mut Copier, variable: usize, list: usize) -> Result<(), NoMemory>
    requires is_open { IsOpen copier.old }
    requires held { IsHeld (held_of copier.old) list }
    ensures goes { IfOk result (λ _. (sources : List Typ) → Goes sources copier.old copier.new) }
    ensures noted { IfOk result (λ _. (ss : List (List ℕ)) (H : Held) → Later (held_of copier.new) H
        → seen ss H copier.new ≡ with_needs (copy_of variable (types_in H list) ∷ []) (seen ss H copier.old)) }
{
    copier.scopes.note(variable, list)
}

/// An atom, which is needed at no types.
pub fn atom(copier: &mut Copier, variable: usize) -> Result<usize, NoMemory>
    requires { IsOpen copier.old }
    ensures goes { IfOk result (λ _. (sources : List Typ) → Goes sources copier.old copier.new) }
    ensures noted { IfOk result (λ _. (ss : List (List ℕ)) (H : Held) → Later (held_of copier.new) H
        → seen ss H copier.new ≡ with_needs (copy_of variable [] ∷ []) (seen ss H copier.old)) }
    ensures is { IfOk result (λ n. (H : Held) → Later (held_of copier.new) H → name_in H n ≡ copy_of variable []) }
{
    note(copier, variable, NOTHING)?;
    alone(copier, variable)
}

fn closed_list(
    alloc: Global,
    tables: &Tables,
    copier: &mut Copier,
    types: &[usize],
) -> Result<usize, NoMemory>
    requires is_open { IsOpen copier.old }
    requires right { IsRight tables.now.types copier.old }
    ensures goes { IfOk result (λ _. Goes tables.now.types copier.old copier.new) }
    ensures stays { IfOk result (λ _. (ss : List (List ℕ)) (H : Held) → seen ss H copier.new ≡ seen ss H copier.old) }
    ensures held { IfOk result (λ k. IsHeld (held_of copier.new) k) }
    ensures is { IfOk result (λ k. (H : Held) → Later (held_of copier.new) H
        → types_in H k ≡ map (replace (standing H.types copier.old.slots)) (map (type_at tables.now.types) types.now)) }
{
    let mut closed = Vec::new(alloc);
    for i in 0..types.len() {
        let n = type_of(alloc, tables, copier, types[i])?;
        closed.push(n)?;
    }
    copier.lists.number(closed)
}

/// The list that a variable is used at: inside its group that of the group's copy.
fn list_at(
    alloc: Global,
    tables: &Tables,
    copier: &mut Copier,
    variable: usize,
    types: &[usize],
) -> Result<usize, NoMemory>
    requires is_open { IsOpen copier.old }
    requires right { IsRight tables.now.types copier.old }
    ensures goes { IfOk result (λ _. Goes tables.now.types copier.old copier.new) }
    ensures stays { IfOk result (λ _. (ss : List (List ℕ)) (H : Held) → seen ss H copier.new ≡ seen ss H copier.old) }
    ensures held { IfOk result (λ k. IsHeld (held_of copier.new) k) }
    ensures is { IfOk result (λ k. (H : Held) → Later (held_of copier.new) H → copy_of variable (types_in H k)
        ≡ mono.used (groups_in H copier.old.own) (standing H.types copier.old.slots) (inst variable (map (type_at tables.now.types) types.now))) }
{
    match copier.own.find(variable) {
        Some(list) => Ok(list),
        None => closed_list(alloc, tables, copier, types),
    }
}

/// The copy of a variable that is used at types.
pub fn used(
    alloc: Global,
    tables: &Tables,
    copier: &mut Copier,
    variable: usize,
    types: &[usize],
) -> Result<usize, NoMemory>
    requires is_open { IsOpen copier.old }
    requires right { IsRight tables.now.types copier.old }
    ensures goes { IfOk result (λ _. Goes tables.now.types copier.old copier.new) }
    ensures noted { IfOk result (λ _. (ss : List (List ℕ)) (H : Held) → Later (held_of copier.new) H → seen ss H copier.new
        ≡ with_needs (mono.used (groups_in H copier.old.own) (standing H.types copier.old.slots) (inst variable (map (type_at tables.now.types) types.now)) ∷ [])
        (seen ss H copier.old)) }
    ensures is { IfOk result (λ n. (H : Held) → Later (held_of copier.new) H → name_in H n
        ≡ mono.used (groups_in H copier.old.own) (standing H.types copier.old.slots) (inst variable (map (type_at tables.now.types) types.now))) }
{
    let list = list_at(alloc, tables, copier, variable, types)?;
    note(copier, variable, list)?;
    copy_at(copier, variable, list)
}

/// The first type of a class.
fn first_of(class: Class) -> TyName
    ensures { of_name result ≡ of_class class }
{
    if class.int {
        TyName::INT
    } else if class.word {
        TyName::WORD
    } else if class.char {
        TyName::CHAR
    } else {
        TyName::STRING
    }
}

/// What a parameter stands for in the first copy.
fn unit_of(alloc: Global, closed: &mut Types, mark: Mark) -> Result<usize, NoMemory>
    ensures is { IfOk result (λ n. slice_get closed.new n ≡ Some (unit_for mark)) }
    ensures earlier_stay { take (length closed.old) closed.new ≡ closed.old }
{
    let head = match mark {
        Mark::Any => Head::Record(Vec::new(alloc)),
        Mark::Equality => Head::Record(Vec::new(alloc)),
        Mark::Class(class) => Head::Named(first_of(class)),
    };
    closed.apply(alloc, head, &[])
}

/// What parameters stand for in the first copy.
fn units_of(
    alloc: Global,
    closed: &mut Types,
    parameters: &[Quantified],
) -> Result<Vec<usize>, NoMemory>
    ensures is { IfOk result (λ numbers. map (type_at closed.new) numbers.items ≡ units parameters.now) }
    ensures below { IfOk result (λ numbers. AllBelow (length closed.new) numbers.items) }
    ensures earlier_stay { IfOk result (λ _. take (length closed.old) closed.new ≡ closed.old) }
{
    let mut numbers = Vec::new(alloc);
    for i in 0..parameters.len() {
        let n = unit_of(alloc, closed, parameters[i].mark)?;
        numbers.push(n)?;
    }
    Ok(numbers)
}

/// The list of types that the first copy of a binding is at.
pub fn unit_list(
    alloc: Global,
    copier: &mut Copier,
    parameters: &[Quantified],
) -> Result<usize, NoMemory>
    requires { IsOpen copier.old }
    ensures goes { IfOk result (λ _. (sources : List Typ) → Goes sources copier.old copier.new) }
    ensures stays { IfOk result (λ _. (ss : List (List ℕ)) (H : Held) → seen ss H copier.new ≡ seen ss H copier.old) }
    ensures held { IfOk result (λ k. IsHeld (held_of copier.new) k) }
    ensures is { IfOk result (λ k. (H : Held) → Later (held_of copier.new) H → types_in H k ≡ units parameters.now) }
{
    let types = units_of(alloc, &mut copier.closed, parameters)?;
    copier.lists.number(types)
}

/// Binds parameters to types, the first one last.
fn put_slots(
    slots: &mut Scoped<usize>,
    parameters: &[Quantified],
    types: &[usize],
) -> Result<(), NoMemory>
    ensures { IfOk result (λ _. slots.new ≡ slots_for parameters.now types.now ++ slots.old) }
{
    let mut left = parameters.len().min(types.len());
    while left > 0 {
        left -= 1;
        slots.bind(parameters[left].variable, types[left])?;
    }
    Ok(())
}

/// The numbers of the types of a list; none where there is no such list.
fn numbers_at(lists: &Lists, list: usize) -> &[usize]
    ensures { result.now ≡ get_or lists.now list [] }
{
    match lists.get(list) {
        Some(types) => types,
        None => &[],
    }
}

/// Puts the types of a list for parameters, the first of which is bound last. What was closed before is handed out.
pub fn stand(
    alloc: Global,
    copier: &mut Copier,
    parameters: &[Quantified],
    list: usize,
) -> Result<IndexMap<usize, usize>, NoMemory>
    requires is_open { IsOpen copier.old }
    requires held { IsHeld (held_of copier.old) list }
    ensures stands { IfOk result (λ _. Stands parameters.now list copier.old copier.new) }
    ensures stays { IfOk result (λ _. (ss : List (List ℕ)) (H : Held) → seen ss H copier.new ≡ seen ss H copier.old) }
    ensures before { IfOk result (λ before. before ≡ copier.old.known) }
{
    let types = numbers_at(&copier.lists, list);
    put_slots(&mut copier.slots, parameters, types)?;
    Ok(std::mem::replace(&mut copier.known, IndexMap::new(alloc)))
}

/// Leaves all slots but the first so many, with what was closed under them.
pub fn restore(copier: &mut Copier, slots: usize, before: IndexMap<usize, usize>)
    ensures { copier.new ≡ record copier.old { slots = drop (length copier.old.slots - slots) copier.old.slots; known = before } }
{
    copier.slots.truncate(slots);
    copier.known = before;
}
