// The declaration of abbreviations.
ghost use Rattle.std.specs.Prelude.{◌≡◌, [], true, map, nat_eq, IfOk};
ghost use Rattle.std.specs.List.{list_all};
ghost use Rattle.sml_tree.specs.BareTree.{type_dec};
ghost use Rattle.sml_tree.specs.TreeOf.{type_bind_of};
ghost use Rattle.core_rules.specs.Restrictions.{distinct, no_repetition};
ghost use Rattle.elab_types.specs.Reading.{Holds};
ghost use Rattle.closed_types.specs.of_elab_state.States.{types_in};
ghost use Rattle.exp_forms.specs.of_elab_context.Telling.{IsContext};
ghost use Rattle.dec_forms.specs.Bringing.{IsBringing};
ghost use Rattle.dec_forms.specs.Abbreviations.{AreTypeFunctions};

use crate::bindings::type_functions;
use crate::bring::bring_types;
use crate::brought::Brought;
use crate::once::check_names;
use closed_types::elab_state::state::State;
use elab_types::refused::Refused;
use elab_types::scope::{TypeEntry, TypeScope};
use exp_forms::elab_context::context::Context;
use mlc_base::memory::NoMemory;
use mlc_base::place::Place;
use mlc_names::names::Name;
use scoped_map::scoped::Scoped;
use sml_tree::tree::TypeBind;
use std::alloc::Global;
use std::mem;

/// The names of type constructors.
fn tycons_of(alloc: Global, entries: &[(Name, TypeEntry)]) -> Result<Vec<Name>, NoMemory>
    ensures { IfOk result (λ ns. ns.items ≡ map (λ e. e.0) entries.now) }
{
    let mut names = Vec::new(alloc);
    for i in 0..entries.len() {
        let entry = entries[i];
        names.push(entry.0)?;
    }
    Ok(names)
}

/// The type functions of bindings: the type variables that are in scope round them aren't in them.
fn closed_functions(
    alloc: Global,
    state: &mut State,
    scope: &mut TypeScope,
    binds: &[TypeBind],
) -> Result<Vec<(Name, TypeEntry)>, Refused>
    requires { Holds (types_in state.old) scope.old }
    ensures are { IfOk result (λ ts. AreTypeFunctions state.old scope.old (map type_bind_of binds.now) state.new ts.items) }
    ensures scope { IfOk result (λ _. scope.new ≡ scope.old) }
{
    let outer = mem::replace(&mut scope.tyvars, Scoped::new(alloc));
    let entries = type_functions(alloc, state, scope, binds)?;
    scope.tyvars = outer;
    Ok(entries)
}

/// `type`: no type constructor comes into scope twice, and no sequence has a type variable twice.
pub fn abbreviations(
    alloc: Global,
    state: &mut State,
    context: &mut Context,
    place: Place,
    binds: &[TypeBind],
    brought: &mut Brought,
) -> Result<(), Refused>
    requires { IsContext state.old context.old }
    ensures context { IfOk result (λ _. IsContext state.new context.new) }
    ensures schemes { IfOk result (λ _. context.new.schemes ≡ context.old.schemes) }
    ensures once { IfOk result (λ _. distinct nat_eq (map (λ b. b.tycon) (map type_bind_of binds.now)) ≡ true) }
    ensures unrepeated { IfOk result (λ _. list_all (λ b. no_repetition b.tyvars) (map type_bind_of binds.now) ≡ true) }
    ensures declared { IfOk result (λ _. IsBringing state.old context.old (type_dec place (map type_bind_of binds.now)) state.new context.new []
        brought.old brought.new) }
{
    let entries = closed_functions(alloc, state, &mut context.types, binds)?;
    let tycons = tycons_of(alloc, &entries)?;
    check_names(alloc, place, &tycons)?;
    bring_types(context, &entries)?;
    brought.add_types(&entries)?;
    Ok(())
}
