// Abbreviations beside datatypes, as type functions.
ghost use Rattle.std.specs.Prelude.{◌≡◌, [], map, IfOk};
ghost use Rattle.sml_tree.specs.TreeOf.{type_bind_of};
ghost use Rattle.elab_types.specs.Reading.{Holds};
ghost use Rattle.elab_state.specs.States.{types_in};
ghost use Rattle.datatype_forms.specs.Abbreviated.{AreFunctionEntries, IsFunctionEntry};
ghost use Rattle.datatype_forms.specs.Steps.{IsStep};

use closed_types::annotate::closed_type;
use closed_types::parameters::enter_parameters;
use dec_forms::bindings::names_of;
use dec_forms::once::check_names;
use elab_state::state::State;
use elab_types::refused::Refused;
use elab_types::scope::{NO_CONSTRUCTORS, TypeEntry, TypeScope};
use mlc_names::names::Name;
use sml_tree::tree::TypeBind;
use std::alloc::Global;

/// The type function of an abbreviation, over its own parameters.
fn function_entry(
    alloc: Global,
    state: &mut State,
    scope: &mut TypeScope,
    bind: &TypeBind,
) -> Result<TypeEntry, Refused>
    requires holds { Holds (types_in state.old) scope.old }
    requires none { scope.old.tyvars ≡ [] }
    ensures step { IfOk result (λ _. IsStep state.old state.new) }
    ensures is { IfOk result (IsFunctionEntry (types_in state.old) (types_in state.new) scope.old (type_bind_of bind.now)) }
    ensures scope { IfOk result (λ _. scope.new ≡ scope.old) }
{
    let names = names_of(alloc, &bind.tyvars)?;
    check_names(alloc, bind.place, &names)?;
    enter_parameters(alloc, state, scope, &bind.tyvars)?;
    let body = closed_type(alloc, state, scope, bind.place, &bind.ty)?;
    scope.tyvars.truncate(0);
    Ok(TypeEntry {
        arity: bind.tyvars.len(),
        body,
        constructors: NO_CONSTRUCTORS,
    })
}

/// Those of abbreviations, each in the scope before them, which has no type variables.
pub fn function_entries(
    alloc: Global,
    state: &mut State,
    scope: &mut TypeScope,
    binds: &[TypeBind],
) -> Result<Vec<(Name, TypeEntry)>, Refused>
    requires holds { Holds (types_in state.old) scope.old }
    requires none { scope.old.tyvars ≡ [] }
    ensures step { IfOk result (λ _. IsStep state.old state.new) }
    ensures are { IfOk result (λ es. AreFunctionEntries (types_in state.old) (types_in state.new) scope.old (map type_bind_of binds.now) es.items) }
    ensures scope { IfOk result (λ _. scope.new ≡ scope.old) }
{
    let mut entries = Vec::new(alloc);
    for i in 0..binds.len() {
        let bind = &binds[i];
        let entry = function_entry(alloc, state, scope, bind)?;
        entries.push((bind.tycon, entry))?;
    }
    Ok(entries)
}
