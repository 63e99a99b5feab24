// Where a declaration that generalises ends.
ghost use Rattle.std.specs.Prelude.{◌≡◌, ◌<◌, ◌≤◌, ◌+◌, ◌-◌, ◌++◌, ◌∷◌, [], List, length, true, IfOk};
ghost use Rattle.mlc_base.specs.declared.place.Place.{Place as PlaceAt};
ghost use Rattle.sml_tree.specs.BareTree.{val_dec};
ghost use Rattle.sml_tree.specs.TreeOf.{RuleOf, binds_of};
ghost use Rattle.sml_tree.specs.declared.ident.Tyvar.{Tyvar as TyvarOf};
ghost use Rattle.ir_tables.specs.Tables.{parameters_at, parameters_of};
ghost use Rattle.elab_state.specs.States.{made};
ghost use Rattle.elab_context.specs.Telling.{HasList, IsContext};
ghost use Rattle.rec_groups.specs.of_pat_elab.Elaborated.{AreVariables};
ghost use Rattle.general_vals.specs.of_general_worlds.Inner.{deeper};
ghost use Rattle.elab_steps.specs.Tidy.{IsTidy};
ghost use Rattle.general_vals.specs.of_general_worlds.Tidy.{AreOuter, Ends};
ghost use Rattle.rec_groups.specs.of_dec_forms.Bringing.{IsBringing};
ghost use Rattle.rec_groups.specs.of_dec_forms.Telling.{with_all};
ghost use Rattle.general_decs.specs.Entries.{has_some};
ghost use Rattle.general_decs.specs.Whole.{IsDeclared};
ghost use Rattle.general_decs.specs.Scoped.{IsBegun, IsFurther, IsLedBy, ScopesThese};

use crate::begin::{Begun, mark_of};
use crate::lower::lower_rest;
use crate::settle::show_all;
use elab_context::context::Context;
use elab_context::entry::Entry;
use elab_state::state::State;
use elab_types::refused::Refused;
use general_vals::close::close;
use mlc_base::memory::NoMemory;
use mlc_base::place::Place;
use prog_tree::tree::{Binding, Dec, Function, Rule};
use rec_groups::dec_forms::bring::bring_values;
use rec_groups::dec_forms::brought::Brought;
use rec_groups::exp_forms::distinct::check_once;
use rec_groups::pat_elab::bound::BoundVariable;
use sml_tree::ident::{Tyvar, Vid};
use std::alloc::Global;
use ty_core::mark::Mark;
use ty_core::scheme::Quantified;

/// Whether two marks are one.
fn is_same(left: Mark, right: Mark) -> bool
    ensures { result ≡ true → left ≡ right }
{
    left == right
}

/// Whether a list of parameters begins with those of type variables, for the variables from the first one on.
fn are_led(parameters: &[Quantified], first: usize, scoped: &[Tyvar]) -> bool
    ensures { result ≡ true → IsLedBy first scoped.now parameters.now }
{
    for i in 0..scoped.len() {
        if i >= parameters.len() {
            return false;
        }
        let parameter = parameters[i];
        if parameter.variable < first || parameter.variable - first != i {
            return false;
        }
        if !is_same(parameter.mark, mark_of(&scoped[i])) {
            return false;
        }
    }
    true
}

/// The same of a list of the state.
fn list_led(state: &State, list: usize, first: usize, scoped: &[Tyvar]) -> bool
    requires { HasList state.now list }
    ensures { result ≡ true → IsLedBy first scoped.now (parameters_at (parameters_of state.now.tables) list) }
{
    are_led(&state.tables.parameters[list], first, scoped)
}

/// The end of a declaration inside others: its list of parameters, the first of which are those of the type variables.
fn close_led(
    alloc: Global,
    state: &mut State,
    place: Place,
    level: usize,
    first: usize,
    scoped: &[Tyvar],
) -> Result<usize, Refused>
    requires level { state.old.level ≡ level + 1 }
    requires first { first ≤ made state.old }
    requires outer { AreOuter state.old level first }
    requires tidy { IsTidy state.old (level + 1) }
    ensures ends { IfOk result (λ list. Ends level (parameters_at (parameters_of state.new.tables) list) state.old state.new) }
    ensures list { IfOk result (λ list. HasList state.new list) }
    ensures tidy { IfOk result (λ _. IsTidy state.new level) }
    ensures led { IfOk result (λ list. IsLedBy first scoped.now (parameters_at (parameters_of state.new.tables) list)) }
{
    let Some(list) = close(alloc, state, level, first)? else {
        return Err(Refused::Mistyped(place));
    };
    if !list_led(state, list, first, scoped) {
        return Err(Refused::Mistyped(place));
    }
    Ok(list)
}

/// Leaves the type variables of a declaration.
fn leave(context: &mut Context, tyvars: usize)
    requires { 0 < context.old.level }
    ensures schemes { context.new.schemes ≡ context.old.schemes }
    ensures left { (C : Context) → context.old ≡ deeper C context.old.types → context.old.types.types ≡ C.types.types
        → IsFurther C.types.tyvars context.old.types.tyvars → tyvars ≡ length C.types.tyvars → context.new ≡ C }
{
    context.types.tyvars.truncate(tyvars);
    context.level -= 1;
}

/// Leaves a declaration, and brings what it declares into scope.
fn bring(
    context: &mut Context,
    tyvars: usize,
    values: &[(Vid, Entry)],
    brought: &mut Brought,
) -> Result<(), NoMemory>
    requires { 0 < context.old.level }
    ensures context { IfOk result (λ _. (C : Context) → context.old ≡ deeper C context.old.types → context.old.types.types ≡ C.types.types
        → IsFurther C.types.tyvars context.old.types.tyvars → tyvars ≡ length C.types.tyvars → context.new ≡ with_all C values.now) }
    ensures schemes { IfOk result (λ _. context.new.schemes ≡ context.old.schemes) }
    ensures values { IfOk result (λ _. brought.new.values.items ≡ brought.old.values.items ++ values.now) }
    ensures types { brought.new.types.items ≡ brought.old.types.items }
{
    leave(context, tyvars);
    brought.add_values(values)?;
    bring_values(context, values)
}

/// Whether a list of parameters has any.
fn has_any(state: &State, list: usize) -> bool
    requires { HasList state.now list }
    ensures { result ≡ has_some (parameters_at (parameters_of state.now.tables) list) }
{
    state.tables.parameters[list].len() > 0
}

/// The end of a declaration of whose variables none that is open is of a class or a row.
fn finish_lowered(
    alloc: Global,
    state: &mut State,
    context: &mut Context,
    place: Place,
    begun: Begun,
    scoped: &[Tyvar],
    bound: &[BoundVariable],
    flags: &[bool],
    binds: Vec<(Binding, Rule)>,
    funs: Vec<(Vec<usize>, usize, Function)>,
    brought: &mut Brought,
) -> Result<Dec, Refused>
    requires context { IsContext state.old context.old }
    requires level { state.old.level ≡ context.old.level }
    requires inside { 0 < context.old.level }
    requires have { AreVariables state.old bound.now }
    requires count { length flags.now ≡ length bound.now }
    requires first { begun.first ≤ made state.old }
    requires outer { AreOuter state.old (context.old.level - 1) begun.first }
    ensures schemes { IfOk result (λ _. context.new.schemes ≡ context.old.schemes) }
    ensures brings { IfOk result (λ d. (S M : State) (C : Context) (p q : PlaceAt) (as_ : List TyvarOf) (rs gs : List RuleOf) → IsContext S C
        → IsBegun S C scoped.now M context.old
        → IsDeclared M C context.old.types rs gs state.old bound.now flags.now binds.items funs.items → begun.first ≡ made S
        → begun.tyvars ≡ length C.types.tyvars → ScopesThese C as_ (binds_of rs) (binds_of gs) scoped.now
        → IsBringing S C (val_dec p q as_ (binds_of rs) (binds_of gs)) state.new context.new (d ∷ []) brought.old brought.new) }
    ensures context { IfOk result (λ _. (S M : State) (C : Context) (rs gs : List RuleOf) → IsContext S C → IsBegun S C scoped.now M context.old
        → IsDeclared M C context.old.types rs gs state.old bound.now flags.now binds.items funs.items → begun.first ≡ made S
        → begun.tyvars ≡ length C.types.tyvars → IsContext state.new context.new) }
{
    check_once(alloc, place, bound)?;
    let level = context.level - 1;
    let list = close_led(alloc, state, place, level, begun.first, scoped)?;
    let some = has_any(state, list);
    let values = show_all(alloc, state, list, some, bound, flags)?;
    bring(context, begun.tyvars, &values, brought)?;
    Ok(Dec::Val(list, binds, funs))
}

/// The end of a declaration that generalises. Its variables come into scope, each over its parameters.
pub fn finish(
    alloc: Global,
    state: &mut State,
    context: &mut Context,
    place: Place,
    begun: Begun,
    scoped: &[Tyvar],
    bound: &[BoundVariable],
    flags: &[bool],
    binds: Vec<(Binding, Rule)>,
    funs: Vec<(Vec<usize>, usize, Function)>,
    brought: &mut Brought,
) -> Result<Dec, Refused>
    requires context { IsContext state.old context.old }
    requires level { state.old.level ≡ context.old.level }
    requires inside { 0 < context.old.level }
    requires have { AreVariables state.old bound.now }
    requires count { length flags.now ≡ length bound.now }
    requires first { begun.first ≤ made state.old }
    requires outer { AreOuter state.old (context.old.level - 1) begun.first }
    ensures schemes { IfOk result (λ _. context.new.schemes ≡ context.old.schemes) }
    ensures brings { IfOk result (λ d. (S M : State) (C : Context) (p q : PlaceAt) (as_ : List TyvarOf) (rs gs : List RuleOf) → IsContext S C
        → IsBegun S C scoped.now M context.old
        → IsDeclared M C context.old.types rs gs state.old bound.now flags.now binds.items funs.items → begun.first ≡ made S
        → begun.tyvars ≡ length C.types.tyvars → ScopesThese C as_ (binds_of rs) (binds_of gs) scoped.now
        → IsBringing S C (val_dec p q as_ (binds_of rs) (binds_of gs)) state.new context.new (d ∷ []) brought.old brought.new) }
    ensures context { IfOk result (λ _. (S M : State) (C : Context) (rs gs : List RuleOf) → IsContext S C → IsBegun S C scoped.now M context.old
        → IsDeclared M C context.old.types rs gs state.old bound.now flags.now binds.items funs.items → begun.first ≡ made S
        → begun.tyvars ≡ length C.types.tyvars → IsContext state.new context.new) }
{
    let level = context.level - 1;
    lower_rest(alloc, state, place, level, begun.first)?;
    finish_lowered(
        alloc, state, context, place, begun, scoped, bound, flags, binds, funs, brought,
    )
}
