// The context of the initial basis, and that of the prelude.
ghost use Rattle.std.specs.Prelude.{◌≡◌, ◌≤◌, ◌+◌, ◌++◌, [], length, map, IfOk};
ghost use Rattle.std.specs.List.{AllByRecursion};
ghost use Rattle.elab_context.specs.Telling.{IsContext};
ghost use Rattle.elab_steps.specs.Growing.{Grows};
ghost use Rattle.elab_steps.specs.Tidy.{IsTidy};
ghost use Rattle.basis_context.specs.Basis.{arity_of as arity_at, basis_marks, marks_at, type_entries, type_list};
ghost use Rattle.basis_context.specs.Basis.{all_constructors, all_contents, all_marks, structure_list, without_prim, HasMembers, IsStandard};
ghost use Rattle.basis_context.specs.Basis.{constructors_at, row_constructors};
ghost use Rattle.basis_context.specs.Basis.{entry_at, equal_rows, equal_with, listed_rows, named_rows, named_with};
ghost use Rattle.initial_types.specs.Schemes.{marks_of};
ghost use Rattle.basis_context.specs.Telling.{TellsBasis, TellsPrelude};

use crate::rows::{
    HIDDEN, INT_STRUCTURE, INTEGERS, Kind, ROWS, TYPES, constructor_of, entry_of, vid_of,
};
use crate::tables::{Basis, basis_of};
use elab_context::context::Context;
use elab_context::entry::{Entry, Scheme};
use elab_context::schemes::Schemes;
use elab_state::state::State;
use elab_types::scope::{TypeEntry, TypeScope};
use initial_types::row::Scheme as BasisScheme;
use mlc_base::make::one;
use mlc_base::memory::NoMemory;
use mlc_names::words;
use scoped_map::scoped::Scoped;
use sml_tree::ident::Vid;
use std::alloc::Global;
use ty_core::mark::Mark;
use ty_core::name::TyName;
use vid_scope::vids::VidScope;

/// How many type names the basis has.
const NAME_COUNT: usize = 8;

/// Brings the identifier of a row into scope, with the scheme of a number.
fn bind_row(
    scope: &mut VidScope<Entry>,
    row: (Option<u32>, Kind),
    scheme: usize,
) -> Result<(), NoMemory>
    ensures named { IfOk result (λ _. scope.new.named ≡ named_with row.0 (entry_at row.1 scheme) scope.old.named) }
    ensures fresh { scope.new.fresh ≡ scope.old.fresh }
    ensures equals { IfOk result (λ _. scope.new.equals ≡ equal_with row.0 (entry_at row.1 scheme) scope.old.equals) }
{
    let entry = entry_of(row.1, scheme);
    match row.0 {
        Some(word) => scope.named.bind(word as usize, entry),
        None => scope.equals.bind(0, entry),
    }
}

/// The identifiers of these rows; their schemes are numbered from the first on.
fn scope_of(
    alloc: Global,
    rows: &[(Option<u32>, Kind)],
    first: usize,
) -> Result<VidScope<Entry>, NoMemory>
    requires { first + length rows.now ≤ 100 }
    ensures named { IfOk result (λ s. s.named ≡ named_rows rows.now first) }
    ensures fresh { IfOk result (λ s. s.fresh ≡ []) }
    ensures equals { IfOk result (λ s. s.equals ≡ equal_rows rows.now first) }
{
    let mut scope = VidScope::new(alloc);
    let mut i = rows.len();
    while i > 0 {
        i -= 1;
        bind_row(&mut scope, rows[i], first + i)?;
    }
    Ok(scope)
}

/// How many arguments a type constructor takes.
fn arity_of(name: Option<TyName>) -> usize
    ensures { result ≡ arity_at name }
{
    match name {
        Some(name) => name.arity as usize,
        None => 0,
    }
}

/// The type constructors, with the bodies of their functions.
fn types_of(alloc: Global, bodies: &[usize]) -> Result<TypeScope, NoMemory>
    requires { length bodies.now ≡ 9 }
    ensures tyvars { IfOk result (λ s. s.tyvars ≡ []) }
    ensures types { IfOk result (λ s. s.types ≡ type_entries type_list bodies.now) }
{
    let mut types = Scoped::new(alloc);
    let mut i = TYPES.len();
    while i > 0 {
        i -= 1;
        let entry = TypeEntry {
            arity: arity_of(TYPES[i].1),
            body: bodies[i],
            constructors: TYPES[i].2,
        };
        types.bind(TYPES[i].0 as usize, entry)?;
    }
    Ok(TypeScope {
        tyvars: Scoped::new(alloc),
        types,
    })
}

/// The marks of a scheme's parameters.
fn marks_in(alloc: Global, mark: Option<Mark>) -> Result<Vec<Mark>, NoMemory>
    ensures { IfOk result (λ marks. marks.items ≡ marks_of mark) }
{
    match mark {
        Some(mark) => one(alloc, mark),
        None => Ok(Vec::new(alloc)),
    }
}

/// Adds the schemes of rows to those of a context.
fn add_schemes(
    alloc: Global,
    rows: &[(Option<u32>, Kind)],
    added: &[BasisScheme],
    schemes: &mut Schemes,
) -> Result<(), NoMemory>
    requires { length added.now ≡ length rows.now }
    ensures marks { IfOk result (λ _. marks_at schemes.new.items ≡ marks_at schemes.old.items ++ basis_marks added.now) }
    ensures constructors { IfOk result (λ _. constructors_at schemes.new.items ≡ constructors_at schemes.old.items ++ row_constructors rows.now) }
{
    for i in 0..added.len() {
        let marks = marks_in(alloc, added[i].mark)?;
        schemes.push(Scheme {
            marks,
            body: added[i].body,
            constructor: constructor_of(rows[i].1),
        })?;
    }
    Ok(())
}

/// The schemes of the basis, one behind the other.
fn all_schemes(alloc: Global, basis: &Basis) -> Result<Schemes, NoMemory>
    requires values { length basis.now.values.items ≡ 25 }
    requires integers { length basis.now.integers.items ≡ 3 }
    requires hidden { length basis.now.hidden.items ≡ 21 }
    ensures marks { IfOk result (λ schemes. marks_at schemes.items ≡ all_marks basis.now) }
    ensures constructors { IfOk result (λ schemes. constructors_at schemes.items ≡ all_constructors) }
{
    let mut schemes = Schemes::new(alloc);
    add_schemes(alloc, &ROWS, &basis.values, &mut schemes)?;
    add_schemes(alloc, &INTEGERS, &basis.integers, &mut schemes)?;
    add_schemes(alloc, &HIDDEN, &basis.hidden, &mut schemes)?;
    Ok(schemes)
}

/// What the structures have.
fn members_of(alloc: Global) -> Result<Vec<VidScope<Entry>>, NoMemory>
    ensures { IfOk result (λ members. HasMembers members.items) }
{
    let integers = scope_of(alloc, &INTEGERS, ROWS.len())?;
    let hidden = scope_of(alloc, &HIDDEN, ROWS.len() + INTEGERS.len())?;
    let mut members = Vec::new(alloc);
    members.push(integers)?;
    members.push(hidden)?;
    Ok(members)
}

/// The identifiers of rows in their order; their schemes are numbered from the first on.
fn listed(
    alloc: Global,
    rows: &[(Option<u32>, Kind)],
    first: usize,
) -> Result<Vec<(Vid, Entry)>, NoMemory>
    requires words { AllByRecursion (λ r. IsStandard r.0) rows.now }
    requires few { first + length rows.now ≤ 100 }
    ensures { IfOk result (λ entries. entries.items ≡ listed_rows rows.now first) }
{
    let mut entries = Vec::new(alloc);
    for i in 0..rows.len() {
        entries.push((vid_of(rows[i].0), entry_of(rows[i].1, first + i)))?;
    }
    Ok(entries)
}

/// What the structures have, in the order of its rows.
fn contents_of(alloc: Global) -> Result<Vec<Vec<(Vid, Entry)>>, NoMemory>
    ensures { IfOk result (λ contents. map (λ es. es.items) contents.items ≡ all_contents) }
{
    let integers = listed(alloc, &INTEGERS, ROWS.len())?;
    let hidden = listed(alloc, &HIDDEN, ROWS.len() + INTEGERS.len())?;
    let mut contents = Vec::new(alloc);
    contents.push(integers)?;
    contents.push(hidden)?;
    Ok(contents)
}

/// The structures, `Prim` the latest.
fn structures_of(alloc: Global) -> Result<Scoped<usize>, NoMemory>
    ensures { IfOk result (λ structures. structures ≡ structure_list) }
{
    let mut structures = Scoped::new(alloc);
    structures.bind(INT_STRUCTURE as usize, 0)?;
    structures.bind(words::PRIM as usize, 1)?;
    Ok(structures)
}

/// The context that the prelude's declarations begin with: the initial basis, with the structure `Prim`.
pub fn prelude_context(alloc: Global, state: &mut State) -> Result<Context, NoMemory>
    requires level { state.old.level ≡ 0 }
    requires tidy { IsTidy state.old 0 }
    ensures is { IfOk result (λ c. IsContext state.new c) }
    ensures tells { IfOk result (λ c. TellsPrelude state.new c) }
    ensures without_prim { IfOk result (λ c. IsContext state.new (without_prim c)) }
    ensures tells_without { IfOk result (λ c. TellsBasis state.new (without_prim c)) }
    ensures grows { IfOk result (λ _. Grows state.old state.new) }
    ensures tables { state.new.tables ≡ state.old.tables }
    ensures next { state.new.next ≡ state.old.next }
{
    let basis = basis_of(alloc, state)?;
    let schemes = all_schemes(alloc, &basis)?;
    let values = scope_of(alloc, &ROWS, 0)?;
    let members = members_of(alloc)?;
    let contents = contents_of(alloc)?;
    let structures = structures_of(alloc)?;
    let types = types_of(alloc, &basis.bodies)?;
    Ok(Context {
        values,
        structures,
        members,
        contents,
        types,
        schemes,
        level: 0,
        names: NAME_COUNT,
        naming: None,
        numbers: Scoped::new(alloc),
    })
}

/// Takes the structure `Prim` out of scope.
pub fn hide_prim(context: &mut Context)
    ensures { context.new ≡ without_prim context.old }
{
    context.structures.truncate(1);
}

/// The context before any declaration.
pub fn initial_context(alloc: Global, state: &mut State) -> Result<Context, NoMemory>
    requires level { state.old.level ≡ 0 }
    requires tidy { IsTidy state.old 0 }
    ensures is { IfOk result (λ c. IsContext state.new c) }
    ensures tells { IfOk result (λ c. TellsBasis state.new c) }
    ensures grows { IfOk result (λ _. Grows state.old state.new) }
    ensures tables { state.new.tables ≡ state.old.tables }
    ensures next { state.new.next ≡ state.old.next }
{
    let mut context = prelude_context(alloc, state)?;
    hide_prim(&mut context);
    Ok(context)
}
