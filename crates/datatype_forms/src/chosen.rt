// The names of a declaration's datatypes, of which as many admit equality as can, and the arguments of constructors, read with them. Beside the datatypes stand
// the abbreviations of a `withtype`, or none.
ghost use Rattle.std.specs.Prelude.{◌≡◌, [], length, map, nat_eq, true, IfOk};
ghost use Rattle.std.specs.List.{list_all};
ghost use Rattle.sml_tree.specs.TreeOf.{type_bind_of};
ghost use Rattle.core_rules.specs.Restrictions.{distinct, no_repetition};
ghost use Rattle.elab_types.specs.Reading.{Holds};
ghost use Rattle.elab_state.specs.States.{types_in};
ghost use Rattle.datatype_forms.specs.Abbreviated.{binds_with};
ghost use Rattle.datatype_forms.specs.Best.{AreArgumentsIn, AreBestNames, AreDataArguments, AreInUse, AreMarked};

use crate::attributes::{Arguments, Datatypes};
use crate::entries::{bind_entries, name_entries};
use crate::functions::function_entries;
use crate::in_use::check_over;
use crate::marks::{all_marks, best_marks};
use crate::names::{marked_names, standing_names};
use crate::reading::read_binds;
use elab_state::state::State;
use elab_types::refused::Refused;
use elab_types::scope::TypeScope;
use mlc_base::place::Place;
use scoped_map::scoped::Scoped;
use sml_tree::tree::{DataBind, TypeBind};
use std::alloc::Global;
use std::mem;
use ty_core::name::TyName;

/// The arguments of constructors, where each datatype is the type name of its place, and each abbreviation its type function, in a scope with no type
/// variables.
fn arguments_in(
    alloc: Global,
    state: &mut State,
    scope: &mut TypeScope,
    binds: &[DataBind],
    abbreviations: &[TypeBind],
    names: &[TyName],
) -> Result<Arguments, Refused>
    requires holds { Holds (types_in state.old) scope.old }
    requires none { scope.old.tyvars ≡ [] }
    requires single { distinct nat_eq (map (λ b. b.tycon) (map type_bind_of abbreviations.now)) ≡ true }
    requires count { length names.now ≡ length binds.now }
    ensures are { IfOk result (λ r. AreArgumentsIn state.old scope.old (binds_with abbreviations.now binds.now) names.now state.new r) }
    ensures once { IfOk result (λ _. list_all (λ b. no_repetition b.tyvars) (binds_with abbreviations.now binds.now) ≡ true) }
    ensures scope { IfOk result (λ _. scope.new ≡ scope.old) }
{
    let entries = name_entries(alloc, state, binds, names)?;
    let mark = scope.mark();
    bind_entries(scope, &entries)?;
    let functions = function_entries(alloc, state, scope, abbreviations)?;
    bind_entries(scope, &functions)?;
    let rows = read_binds(alloc, state, scope, binds)?;
    scope.leave(mark);
    Ok(Arguments { entries, rows })
}

/// Refuses arguments of which one has a type name that isn't in use.
fn check_in_use(
    alloc: Global,
    state: &mut State,
    scope: &mut TypeScope,
    first: usize,
    place: Place,
    binds: &[DataBind],
    abbreviations: &[TypeBind],
) -> Result<(), Refused>
    requires holds { Holds (types_in state.old) scope.old }
    requires none { scope.old.tyvars ≡ [] }
    requires single { distinct nat_eq (map (λ b. b.tycon) (map type_bind_of abbreviations.now)) ≡ true }
    ensures are { IfOk result (λ _. AreInUse state.old scope.old first (binds_with abbreviations.now binds.now) state.new) }
    ensures scope { IfOk result (λ _. scope.new ≡ scope.old) }
{
    let names = standing_names(alloc, binds)?;
    let arguments = arguments_in(alloc, state, scope, binds, abbreviations, &names)?;
    check_over(
        alloc,
        &state.solver.subst.types,
        first,
        place,
        &arguments.rows,
    )?;
    Ok(())
}

/// The arguments, where all new names admit equality.
fn marked_arguments(
    alloc: Global,
    state: &mut State,
    scope: &mut TypeScope,
    first: usize,
    binds: &[DataBind],
    abbreviations: &[TypeBind],
) -> Result<Arguments, Refused>
    requires holds { Holds (types_in state.old) scope.old }
    requires none { scope.old.tyvars ≡ [] }
    requires single { distinct nat_eq (map (λ b. b.tycon) (map type_bind_of abbreviations.now)) ≡ true }
    ensures are { IfOk result (λ r. AreMarked state.old scope.old first (binds_with abbreviations.now binds.now) state.new r) }
    ensures scope { IfOk result (λ _. scope.new ≡ scope.old) }
{
    let marks = all_marks(alloc, binds.len())?;
    let names = marked_names(alloc, first, &marks, binds)?;
    let arguments = arguments_in(alloc, state, scope, binds, abbreviations, &names)?;
    Ok(arguments)
}

/// The names of the datatypes, the first of which has this stamp: as many as can admit equality.
pub fn best_names(
    alloc: Global,
    state: &mut State,
    scope: &mut TypeScope,
    first: usize,
    place: Place,
    binds: &[DataBind],
    abbreviations: &[TypeBind],
) -> Result<Vec<TyName>, Refused>
    requires holds { Holds (types_in state.old) scope.old }
    requires none { scope.old.tyvars ≡ [] }
    requires single { distinct nat_eq (map (λ b. b.tycon) (map type_bind_of abbreviations.now)) ≡ true }
    ensures are { IfOk result (λ ns. AreBestNames state.old scope.old first (binds_with abbreviations.now binds.now) state.new ns.items) }
    ensures scope { IfOk result (λ _. scope.new ≡ scope.old) }
{
    check_in_use(alloc, state, scope, first, place, binds, abbreviations)?;
    let arguments = marked_arguments(alloc, state, scope, first, binds, abbreviations)?;
    let marks = best_marks(alloc, state, first, &arguments.rows)?;
    let names = marked_names(alloc, first, &marks, binds)?;
    Ok(names)
}

/// The names of the datatypes, and what is read with them. The type variables that are in scope round the declaration aren't in it.
pub fn data_arguments(
    alloc: Global,
    state: &mut State,
    scope: &mut TypeScope,
    first: usize,
    place: Place,
    binds: &[DataBind],
    abbreviations: &[TypeBind],
) -> Result<Datatypes, Refused>
    requires holds { Holds (types_in state.old) scope.old }
    requires single { distinct nat_eq (map (λ b. b.tycon) (map type_bind_of abbreviations.now)) ≡ true }
    ensures are { IfOk result (λ d. AreDataArguments state.old scope.old first (binds_with abbreviations.now binds.now) state.new d.names.items d.arguments) }
    ensures once { IfOk result (λ _. list_all (λ b. no_repetition b.tyvars) (binds_with abbreviations.now binds.now) ≡ true) }
    ensures scope { IfOk result (λ _. scope.new ≡ scope.old) }
{
    let outer = mem::replace(&mut scope.tyvars, Scoped::new(alloc));
    let names = best_names(alloc, state, scope, first, place, binds, abbreviations)?;
    let arguments = arguments_in(alloc, state, scope, binds, abbreviations, &names)?;
    scope.tyvars = outer;
    Ok(Datatypes { names, arguments })
}
