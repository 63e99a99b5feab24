// The declaration of datatypes.
ghost use Rattle.std.specs.Prelude.{◌≡◌, ◌≤◌, [], length, true, map, nat_eq, IfOk};
ghost use Rattle.std.specs.List.{list_all};
ghost use Rattle.sml_tree.specs.BareTree.{datatype_dec};
ghost use Rattle.sml_tree.specs.Derived.{withtype_of};
ghost use Rattle.sml_tree.specs.TreeOf.{data_bind_of, type_bind_of};
ghost use Rattle.core_rules.specs.Restrictions.{distinct, no_repetition};
ghost use Rattle.ty_basis.specs.Types.{name_count};
ghost use Rattle.elab_state.specs.Namings.{IsAmong};
ghost use Rattle.elab_state.specs.States.{types_in};
ghost use Rattle.elab_steps.specs.Growing.{Begins};
ghost use Rattle.elab_context.specs.Telling.{IsContext};
ghost use Rattle.datatype_forms.specs.of_dec_forms.Bringing.{IsBringing};
ghost use Rattle.datatype_forms.specs.Abbreviated.{binds_with};
ghost use Rattle.datatype_forms.specs.Arguments.{AreRowsOf, AreStanding};
ghost use Rattle.datatype_forms.specs.Best.{rows_of};
ghost use Rattle.datatype_forms.specs.Reading.{AreNameEntries};
ghost use Rattle.datatype_decs.specs.Whole.{AreConstructed, tycons_with};

use crate::constructors::all_constructors;
use crate::rows::add_rows;
use datatype_forms::attributes::Datatypes;
use datatype_forms::chosen::data_arguments;
use datatype_forms::dec_forms::bring::{bring_types, bring_values};
use datatype_forms::dec_forms::brought::Brought;
use datatype_forms::dec_forms::declare_types;
use datatype_forms::dec_forms::once::{check_names, check_values};
use datatype_forms::entries::with_constructors;
use datatype_forms::naming::add_names;
use elab_context::context::Context;
use elab_context::entry::Entry;
use elab_state::state::State;
use elab_types::refused::Refused;
use mlc_base::memory::NoMemory;
use mlc_base::place::Place;
use mlc_names::names::Name;
use sml_tree::ident::Vid;
use sml_tree::tree::{DataBind, TypeBind};
use std::alloc::Global;

/// The names of type constructors, with those of abbreviations.
fn tycons_of(
    alloc: Global,
    binds: &[DataBind],
    abbreviations: &[TypeBind],
) -> Result<Vec<Name>, NoMemory>
    ensures { IfOk result (λ ns. ns.items ≡ tycons_with abbreviations.now binds.now) }
{
    let mut names = Vec::new(alloc);
    for i in 0..binds.len() {
        let tycon = binds[i].tycon;
        names.push(tycon)?;
    }
    for k in 0..abbreviations.len() {
        let tycon = abbreviations[k].tycon;
        names.push(tycon)?;
    }
    Ok(names)
}

/// Refuses type constructors of which one comes into scope twice.
fn check_tycons(
    alloc: Global,
    place: Place,
    binds: &[DataBind],
    abbreviations: &[TypeBind],
) -> Result<(), Refused>
    ensures { IfOk result (λ _. distinct nat_eq (tycons_with abbreviations.now binds.now) ≡ true) }
{
    let tycons = tycons_of(alloc, binds, abbreviations)?;
    check_names(alloc, place, &tycons)?;
    Ok(())
}

/// The type names of the declaration, and its constructors, which aren't in scope yet.
fn constructors(
    alloc: Global,
    state: &mut State,
    context: &mut Context,
    place: Place,
    binds: &[DataBind],
    made: &Datatypes,
) -> Result<Vec<(Vid, Entry)>, Refused>
    requires wide { name_count ≤ context.old.names }
    requires among { IsAmong (length state.old.namings.items) context.old.naming }
    requires standing { AreStanding made.now.names.items (map data_bind_of binds.now) }
    requires entries { AreNameEntries (types_in state.old) (map data_bind_of binds.now) made.now.names.items made.now.arguments.entries.items }
    requires fit { AreRowsOf (types_in state.old) (map data_bind_of binds.now) (rows_of made.now.arguments) }
    ensures { IfOk result (λ es. AreConstructed state.old context.old made.now.names.items (map data_bind_of binds.now) (rows_of made.now.arguments)
        state.new context.new es.items) }
{
    add_names(state, context, binds.len())?;
    let values = all_constructors(alloc, state, context, binds, made)?;
    add_rows(
        alloc,
        state,
        context,
        place,
        binds,
        &made.names,
        &made.arguments.rows,
    )?;
    Ok(values)
}

/// The datatypes of a declaration, which may have abbreviations beside them: these are written out in its constructors, and don't come into scope.
fn datatypes_with(
    alloc: Global,
    state: &mut State,
    context: &mut Context,
    place: Place,
    binds: &[DataBind],
    abbreviations: &[TypeBind],
    brought: &mut Brought,
) -> Result<(), Refused>
    requires { IsContext state.old context.old }
    ensures context { IfOk result (λ _. IsContext state.new context.new) }
    ensures schemes { IfOk result (λ _. Begins context.old.schemes.items context.new.schemes.items) }
    ensures once { IfOk result (λ _. distinct nat_eq (tycons_with abbreviations.now binds.now) ≡ true) }
    ensures unrepeated { IfOk result (λ _. list_all (λ b. no_repetition b.tyvars) (binds_with abbreviations.now binds.now) ≡ true) }
    ensures declared { IfOk result (λ _. IsBringing state.old context.old (datatype_dec place (binds_with abbreviations.now binds.now))
        state.new context.new [] brought.old brought.new) }
{
    check_tycons(alloc, place, binds, abbreviations)?;
    let first = context.names;
    let made = data_arguments(
        alloc,
        state,
        &mut context.types,
        first,
        place,
        binds,
        abbreviations,
    )?;
    let scheme = context.schemes.len();
    let types = with_constructors(alloc, scheme, binds, &made.arguments.entries)?;
    let values = constructors(alloc, state, context, place, binds, &made)?;
    check_values(alloc, place, &values)?;
    bring_values(context, &values)?;
    bring_types(context, &types)?;
    brought.add_values(&values)?;
    brought.add_types(&types)?;
    Ok(())
}

/// `datatype`: no type constructor and no constructor comes into scope twice, and no sequence has a type variable twice.
pub fn datatypes(
    alloc: Global,
    state: &mut State,
    context: &mut Context,
    place: Place,
    binds: &[DataBind],
    brought: &mut Brought,
) -> Result<(), Refused>
    requires { IsContext state.old context.old }
    ensures context { IfOk result (λ _. IsContext state.new context.new) }
    ensures schemes { IfOk result (λ _. Begins context.old.schemes.items context.new.schemes.items) }
    ensures once { IfOk result (λ _. distinct nat_eq (map (λ b. b.tycon) (map data_bind_of binds.now)) ≡ true) }
    ensures unrepeated { IfOk result (λ _. list_all (λ b. no_repetition b.tyvars) (map data_bind_of binds.now) ≡ true) }
    ensures declared { IfOk result (λ _. IsBringing state.old context.old (datatype_dec place (map data_bind_of binds.now)) state.new context.new []
        brought.old brought.new) }
{
    datatypes_with(alloc, state, context, place, binds, &[], brought)?;
    Ok(())
}

/// `datatype` with `withtype`: the datatypes, in whose constructors the abbreviations are written out, and then the abbreviations. No type constructor comes
/// into scope twice, and no sequence has a type variable twice.
pub fn withtypes(
    alloc: Global,
    state: &mut State,
    context: &mut Context,
    place: Place,
    binds: &[DataBind],
    abbreviations: &[TypeBind],
    brought: &mut Brought,
) -> Result<(), Refused>
    requires { IsContext state.old context.old }
    ensures context { IfOk result (λ _. IsContext state.new context.new) }
    ensures schemes { IfOk result (λ _. Begins context.old.schemes.items context.new.schemes.items) }
    ensures once { IfOk result (λ _. distinct nat_eq (tycons_with abbreviations.now binds.now) ≡ true) }
    ensures unrepeated { IfOk result (λ _. list_all (λ b. no_repetition b.tyvars) (map data_bind_of binds.now) ≡ true) }
    ensures unrepeated_beside { IfOk result (λ _. list_all (λ b. no_repetition b.tyvars) (map type_bind_of abbreviations.now) ≡ true) }
    ensures declared { IfOk result (λ _. IsBringing state.old context.old (withtype_of place (map data_bind_of binds.now) (map type_bind_of abbreviations.now))
        state.new context.new [] brought.old brought.new) }
{
    datatypes_with(alloc, state, context, place, binds, abbreviations, brought)?;
    declare_types::abbreviations(alloc, state, context, place, abbreviations, brought)?;
    Ok(())
}
