// Datatypes in a scope of types, each as the type name of its place.
ghost use Rattle.std.specs.Prelude.{◌≡◌, ◌≤◌, length, map, IfOk};
ghost use Rattle.sml_tree.specs.TreeOf.{data_bind_of};
ghost use Rattle.elab_state.specs.States.{types_in};
ghost use Rattle.dec_forms.specs.Entries.{type_scope, types_onto};
ghost use Rattle.datatype_forms.specs.Constructed.{ranged};
ghost use Rattle.datatype_forms.specs.Reading.{AreNameEntries, IsNameEntry};
ghost use Rattle.datatype_forms.specs.Steps.{IsStep};

use crate::closed::named_type;
use elab_state::state::State;
use elab_types::scope::{NO_CONSTRUCTORS, SchemeRange, TypeEntry, TypeScope};
use mlc_base::memory::NoMemory;
use mlc_names::names::Name;
use sml_tree::tree::DataBind;
use std::alloc::Global;
use ty_core::name::TyName;

/// The type function of a type name, which names no constructors yet.
fn name_entry(alloc: Global, state: &mut State, name: &TyName) -> Result<TypeEntry, NoMemory>
    ensures step { IfOk result (λ _. IsStep state.old state.new) }
    ensures is { IfOk result (IsNameEntry (types_in state.new) name.now) }
{
    let body = named_type(alloc, state, *name)?;
    Ok(TypeEntry {
        arity: name.arity as usize,
        body,
        constructors: NO_CONSTRUCTORS,
    })
}

/// Each type constructor with the type function of its type name.
pub fn name_entries(
    alloc: Global,
    state: &mut State,
    binds: &[DataBind],
    names: &[TyName],
) -> Result<Vec<(Name, TypeEntry)>, NoMemory>
    requires { length names.now ≡ length binds.now }
    ensures step { IfOk result (λ _. IsStep state.old state.new) }
    ensures are { IfOk result (λ es. AreNameEntries (types_in state.new) (map data_bind_of binds.now) names.now es.items) }
{
    let mut entries = Vec::new(alloc);
    for i in 0..binds.len() {
        let tycon = binds[i].tycon;
        let entry = name_entry(alloc, state, &names[i])?;
        entries.push((tycon, entry))?;
    }
    Ok(entries)
}

/// The type constructors, each with its constructors, whose schemes come one behind the other from this number on. No memory holds more than have numbers.
pub fn with_constructors(
    alloc: Global,
    first: usize,
    binds: &[DataBind],
    entries: &[(Name, TypeEntry)],
) -> Result<Vec<(Name, TypeEntry)>, NoMemory>
    requires { length entries.now ≡ length binds.now }
    ensures { IfOk result (λ es. es.items ≡ ranged first (map data_bind_of binds.now) entries.now) }
{
    let mut made = Vec::new(alloc);
    let mut next = first;
    for i in 0..binds.len() {
        let entry = entries[i];
        let constructors = SchemeRange {
            first: next,
            count: binds[i].cons.len(),
        };
        made.push((
            entry.0,
            TypeEntry {
                arity: entry.1.arity,
                body: entry.1.body,
                constructors,
            },
        ))?;
        next = match next.checked_add(constructors.count) {
            Some(after) => after,
            None => return Err(NoMemory),
        };
    }
    Ok(made)
}

/// Brings type constructors into a scope.
pub fn bind_entries(scope: &mut TypeScope, entries: &[(Name, TypeEntry)]) -> Result<(), NoMemory>
    ensures { IfOk result (λ _. scope.new ≡ type_scope scope.old.tyvars (types_onto scope.old.types entries.now)) }
{
    for i in 0..entries.len() {
        let entry = entries[i];
        scope.bind_type(entry.0, entry.1)?;
    }
    Ok(())
}
