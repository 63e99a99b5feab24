// Bindings of abbreviations.
ghost use Rattle.std.specs.Prelude.{◌≡◌, [], length, map, IfOk};
ghost use Rattle.sml_tree.specs.TreeOf.{type_bind_of};
ghost use Rattle.elab_types.specs.Reading.{Holds};
ghost use Rattle.closed_types.specs.of_elab_state.States.{types_in};
ghost use Rattle.dec_forms.specs.Abbreviations.{AreTypeFunctions, IsTypeFunction};

use crate::once::check_names;
use closed_types::annotate::closed_type;
use closed_types::elab_state::state::State;
use closed_types::parameters::enter_parameters;
use elab_types::refused::Refused;
use elab_types::scope::{NO_CONSTRUCTORS, TypeEntry, TypeScope};
use mlc_base::memory::NoMemory;
use mlc_names::names::Name;
use sml_tree::ident::Tyvar;
use sml_tree::tree::TypeBind;
use std::alloc::Global;

/// The names of type variables.
pub fn names_of(alloc: Global, tyvars: &[Tyvar]) -> Result<Vec<Name>, NoMemory>
    ensures { IfOk result (λ ns. ns.items ≡ map (λ a. a.name) tyvars.now) }
{
    let mut names = Vec::new(alloc);
    for i in 0..tyvars.len() {
        let tyvar = tyvars[i];
        names.push(tyvar.name)?;
    }
    Ok(names)
}

/// The type function of a binding, in a scope with no type variables.
fn type_function(
    alloc: Global,
    state: &mut State,
    scope: &mut TypeScope,
    bind: &TypeBind,
) -> Result<TypeEntry, Refused>
    requires holds { Holds (types_in state.old) scope.old }
    requires none { scope.old.tyvars ≡ [] }
    ensures is { IfOk result (λ e. IsTypeFunction state.old scope.old (type_bind_of bind.now) state.new e) }
    ensures scope { IfOk result (λ _. scope.new ≡ scope.old) }
{
    let names = names_of(alloc, &bind.tyvars)?;
    check_names(alloc, bind.place, &names)?;
    enter_parameters(alloc, state, scope, &bind.tyvars)?;
    let body = closed_type(alloc, state, scope, bind.place, &bind.ty)?;
    scope.tyvars.truncate(0);
    Ok(TypeEntry {
        arity: bind.tyvars.len(),
        body,
        constructors: NO_CONSTRUCTORS,
    })
}

/// The type functions of bindings, each in the scope before them.
pub fn type_functions(
    alloc: Global,
    state: &mut State,
    scope: &mut TypeScope,
    binds: &[TypeBind],
) -> Result<Vec<(Name, TypeEntry)>, Refused>
    requires holds { Holds (types_in state.old) scope.old }
    requires none { scope.old.tyvars ≡ [] }
    ensures are { IfOk result (λ ts. AreTypeFunctions state.old scope.old (map type_bind_of binds.now) state.new ts.items) }
    ensures scope { IfOk result (λ _. scope.new ≡ scope.old) }
{
    let mut entries = Vec::new(alloc);
    for i in 0..binds.len() {
        let tycon = binds[i].tycon;
        let entry = type_function(alloc, state, scope, &binds[i])?;
        entries.push((tycon, entry))?;
    }
    Ok(entries)
}
