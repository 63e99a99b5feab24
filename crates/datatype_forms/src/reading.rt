// What stands behind `of`, read over the parameters of a datatype.
ghost use Rattle.std.specs.Prelude.{◌≡◌, [], List, Some, length, map, true, IfOk};
ghost use Rattle.std.specs.List.{list_all};
ghost use Rattle.sml_tree.specs.TreeOf.{con_bind_of, data_bind_of, ty_of};
ghost use Rattle.sml_tree.specs.declared.ident.Tyvar.{Tyvar};
ghost use Rattle.core_rules.specs.Restrictions.{no_repetition};
ghost use Rattle.elab_types.specs.Reading.{Holds};
ghost use Rattle.elab_types.specs.declared.scope.TypeScope.{TypeScope};
ghost use Rattle.elab_state.specs.States.{types_in};
ghost use Rattle.closed_types.specs.Parameters.{AreParameters};
ghost use Rattle.datatype_forms.specs.Reading.{AreArgumentTypes, AreRead, IsArgumentType};
ghost use Rattle.datatype_forms.specs.Steps.{IsStep};

use closed_types::annotate::closed_type;
use closed_types::parameters::enter_parameters;
use dec_forms::bindings::names_of;
use dec_forms::once::check_names;
use elab_state::state::State;
use elab_types::refused::Refused;
use elab_types::scope::TypeScope;
use mlc_base::place::Place;
use sml_tree::tree::{ConBind, DataBind, Ty};
use std::alloc::Global;

/// The type that is written, in a scope that has the parameters.
fn written_type(
    alloc: Global,
    state: &mut State,
    scope: &TypeScope,
    place: Place,
    ty: &Ty,
) -> Result<Option<usize>, Refused>
    requires { Holds (types_in state.old) scope.now }
    ensures step { IfOk result (λ _. IsStep state.old state.new) }
    ensures is { IfOk result (λ k. (as_ : List Tyvar) (outer : TypeScope) → scope.now.types ≡ outer.types
        → AreParameters (types_in state.old) 0 as_ scope.now.tyvars
        → IsArgumentType (types_in state.old) (types_in state.new) outer as_ (Some (ty_of ty.now)) k) }
{
    let number = closed_type(alloc, state, scope, place, ty)?;
    Ok(Some(number))
}

/// The type behind `of`, if that is there.
fn argument_type(
    alloc: Global,
    state: &mut State,
    scope: &TypeScope,
    con: &ConBind,
) -> Result<Option<usize>, Refused>
    requires { Holds (types_in state.old) scope.now }
    ensures step { IfOk result (λ _. IsStep state.old state.new) }
    ensures is { IfOk result (λ k. (as_ : List Tyvar) (outer : TypeScope) → scope.now.types ≡ outer.types
        → AreParameters (types_in state.old) 0 as_ scope.now.tyvars
        → IsArgumentType (types_in state.old) (types_in state.new) outer as_ (con_bind_of con.now).of_ty k) }
{
    match &con.of_ty {
        None => Ok(None),
        Some(ty) => written_type(alloc, state, scope, con.place, ty),
    }
}

/// Those of all constructors of a datatype.
fn argument_types(
    alloc: Global,
    state: &mut State,
    scope: &TypeScope,
    cons: &[ConBind],
) -> Result<Vec<Option<usize>>, Refused>
    requires { Holds (types_in state.old) scope.now }
    ensures step { IfOk result (λ _. IsStep state.old state.new) }
    ensures are { IfOk result (λ ks. (as_ : List Tyvar) (outer : TypeScope) → Holds (types_in state.old) outer → scope.now.types ≡ outer.types
        → AreParameters (types_in state.old) 0 as_ scope.now.tyvars
        → AreArgumentTypes (types_in state.old) (types_in state.new) outer as_ (map con_bind_of cons.now) ks.items) }
{
    let mut row = Vec::new(alloc);
    for i in 0..cons.len() {
        let number = argument_type(alloc, state, scope, &cons[i])?;
        row.push(number)?;
    }
    Ok(row)
}

/// Those of a datatype, over its own parameters: no type variable stands twice among these.
fn read_bind(
    alloc: Global,
    state: &mut State,
    scope: &mut TypeScope,
    bind: &DataBind,
) -> Result<Vec<Option<usize>>, Refused>
    requires holds { Holds (types_in state.old) scope.old }
    requires none { scope.old.tyvars ≡ [] }
    ensures step { IfOk result (λ _. IsStep state.old state.new) }
    ensures are { IfOk result (λ ks. AreArgumentTypes (types_in state.old) (types_in state.new) scope.old (data_bind_of bind.now).tyvars
        (data_bind_of bind.now).cons ks.items) }
    ensures once { IfOk result (λ _. no_repetition (data_bind_of bind.now).tyvars ≡ true) }
    ensures scope { IfOk result (λ _. scope.new ≡ scope.old) }
{
    let names = names_of(alloc, &bind.tyvars)?;
    check_names(alloc, bind.place, &names)?;
    enter_parameters(alloc, state, scope, &bind.tyvars)?;
    let row = argument_types(alloc, state, scope, &bind.cons)?;
    scope.tyvars.truncate(0);
    Ok(row)
}

/// The arguments of all constructors of a declaration, in a scope with no type variables.
pub fn read_binds(
    alloc: Global,
    state: &mut State,
    scope: &mut TypeScope,
    binds: &[DataBind],
) -> Result<Vec<Vec<Option<usize>>>, Refused>
    requires holds { Holds (types_in state.old) scope.old }
    requires none { scope.old.tyvars ≡ [] }
    ensures are { IfOk result (λ rows. AreRead state.old scope.old (map data_bind_of binds.now) state.new (map (λ ks. ks.items) rows.items)) }
    ensures once { IfOk result (λ _. list_all (λ b. no_repetition b.tyvars) (map data_bind_of binds.now) ≡ true) }
    ensures scope { IfOk result (λ _. scope.new ≡ scope.old) }
{
    let mut rows = Vec::new(alloc);
    for i in 0..binds.len() {
        let row = read_bind(alloc, state, scope, &binds[i])?;
        rows.push(row)?;
    }
    Ok(rows)
}
