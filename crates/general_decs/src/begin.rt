// Where a declaration that generalises begins.
ghost use Rattle.std.specs.Prelude.{◌≡◌, ◌<◌, ◌≤◌, ◌+◌, ◌∷◌, [], is_some, length, nat_eq, slice_get, Some, IfOk};
ghost use Rattle.std.specs.Map.{lookup};
ghost use Rattle.ty_core.specs.Types.{var};
ghost use Rattle.core_rules.specs.Typing.{mark_of as mark_of_tyvar};
ghost use Rattle.elab_state.specs.States.{dead_level, made, types_in};
ghost use Rattle.elab_steps.specs.Growing.{Always, Grows, HasType};
ghost use Rattle.elab_context.specs.Telling.{IsContext};
ghost use Rattle.general_vals.specs.of_general_worlds.Inner.{deeper};
ghost use Rattle.general_vals.specs.of_general_worlds.Tidy.{Enters};
ghost use Rattle.general_decs.specs.Scoped.{CameByName, CameIntoScope, IsBegun, IsFurther};

use elab_context::context::Context;
use elab_state::state::State;
use elab_types::refused::Refused;
use general_vals::enter::enter;
use mlc_base::memory::NoMemory;
use mlc_base::place::Place;
use sml_tree::ident::Tyvar;
use std::alloc::Global;
use ty_core::mark::Mark;
use ty_solve::limit::Limit;

/// Where a declaration began: its first variable of types, how many type variables are in scope outside, and its first record pattern with `...`.
#[derive(Clone, Copy)]
pub struct Begun {
    pub first: usize,
    pub tyvars: usize,
    pub flexible: usize,
}

/// What is asked of the types of a type variable.
pub fn mark_of(tyvar: &Tyvar) -> Mark
    ensures { result ≡ mark_of_tyvar tyvar.now }
{
    if tyvar.equality {
        Mark::Equality
    } else {
        Mark::Any
    }
}

/// A new variable for a type variable, as a type.
fn tyvar_type(
    alloc: Global,
    state: &mut State,
    tyvar: &Tyvar,
    limit: Limit,
) -> Result<usize, NoMemory>
    requires wide { 4 ≤ limit.names }
    requires deep { limit.level < dead_level }
    requires inside { limit.level ≤ state.old.level }
    ensures grows { IfOk result (λ _. Grows state.old state.new) }
    ensures is { IfOk result (λ r. HasType state.new r) }
    ensures made { IfOk result (λ _. made state.new ≡ made state.old + 1) }
    ensures variable { IfOk result (λ r. slice_get (types_in state.new) r ≡ Some (var (made state.old))) }
    ensures next { IfOk result (λ _. state.new.next ≡ state.old.next) }
{
    let mark = mark_of(tyvar);
    let v = state.solver.fresh(mark, limit)?;
    state.solver.variable(alloc, v)
}

/// Whether a type variable is in scope.
fn is_scoped(context: &Context, tyvar: &Tyvar) -> bool
    ensures { result ≡ is_some (lookup (nat_eq tyvar.now.name) context.now.types.tyvars) }
{
    let found = context.types.tyvars.find(tyvar.name.number() as usize);
    found.is_some()
}

/// Brings a type variable into scope.
fn bind_tyvar(context: &mut Context, tyvar: &Tyvar, ty: usize) -> Result<(), NoMemory>
    ensures rest { IfOk result (λ _. context.new ≡ record context.old { types = context.new.types }) }
    ensures types { IfOk result (λ _. context.new.types.types ≡ context.old.types.types) }
    ensures bound { IfOk result (λ _. context.new.types.tyvars ≡ (tyvar.now.name, ty) ∷ context.old.types.tyvars) }
{
    context.types.bind_tyvar(tyvar.name, ty)
}

/// Brings a type variable into scope that isn't there, for a new variable of the declaration.
fn scope_tyvar(
    alloc: Global,
    state: &mut State,
    context: &mut Context,
    place: Place,
    tyvar: &Tyvar,
) -> Result<(), Refused>
    requires context { IsContext state.old context.old }
    ensures grows { IfOk result (λ _. Grows state.old state.new) }
    ensures made { IfOk result (λ _. made state.new ≡ made state.old + 1) }
    ensures next { IfOk result (λ _. state.new.next ≡ state.old.next) }
    ensures context { IfOk result (λ _. IsContext state.new context.new) }
    ensures rest { IfOk result (λ _. context.new ≡ record context.old { types = context.new.types }) }
    ensures types { IfOk result (λ _. context.new.types.types ≡ context.old.types.types) }
    ensures further { IfOk result (λ _. IsFurther context.old.types.tyvars context.new.types.tyvars) }
    ensures named { IfOk result (λ _. CameByName (tyvar.now ∷ []) context.old.types.tyvars context.new.types.tyvars) }
    ensures came { IfOk result (λ _. Always state.new (λ W. CameIntoScope W (made state.old)
        (tyvar.now ∷ []) context.old.types.tyvars context.new.types.tyvars)) }
{
    if is_scoped(context, tyvar) {
        return Err(Refused::Broken(place));
    }
    let ty = tyvar_type(alloc, state, tyvar, context.limit())?;
    bind_tyvar(context, tyvar, ty)?;
    Ok(())
}

/// Brings type variables into scope, one after the other.
fn scope_tyvars(
    alloc: Global,
    state: &mut State,
    context: &mut Context,
    place: Place,
    scoped: &[Tyvar],
) -> Result<(), Refused>
    requires context { IsContext state.old context.old }
    ensures grows { IfOk result (λ _. Grows state.old state.new) }
    ensures next { IfOk result (λ _. state.new.next ≡ state.old.next) }
    ensures context { IfOk result (λ _. IsContext state.new context.new) }
    ensures rest { IfOk result (λ _. context.new ≡ record context.old { types = context.new.types }) }
    ensures types { IfOk result (λ _. context.new.types.types ≡ context.old.types.types) }
    ensures further { IfOk result (λ _. IsFurther context.old.types.tyvars context.new.types.tyvars) }
    ensures named { IfOk result (λ _. CameByName scoped.now context.old.types.tyvars context.new.types.tyvars) }
    ensures came { IfOk result (λ _. Always state.new (λ W. CameIntoScope W (made state.old) scoped.now context.old.types.tyvars context.new.types.tyvars)) }
{
    for i in 0..scoped.len() {
        scope_tyvar(alloc, state, context, place, &scoped[i])?;
    }
    Ok(())
}

/// The state and the context are inside a declaration more; the number of the first variable that may belong to it.
fn enter_both(state: &mut State, context: &mut Context) -> Result<usize, NoMemory>
    requires context { IsContext state.old context.old }
    requires level { state.old.level ≡ context.old.level }
    ensures enters { IfOk result (λ _. Enters state.old state.new) }
    ensures first { IfOk result (λ first. first ≡ made state.old) }
    ensures deeper { IfOk result (λ _. context.new ≡ deeper context.old context.old.types) }
    ensures context { IfOk result (λ _. IsContext state.new context.new) }
{
    let first = enter(state)?;
    context.level = state.level;
    Ok(first)
}

/// The beginning of a declaration that scopes these type variables: the context is one deeper.
pub fn begin(
    alloc: Global,
    state: &mut State,
    context: &mut Context,
    place: Place,
    scoped: &[Tyvar],
) -> Result<Begun, Refused>
    requires context { IsContext state.old context.old }
    requires level { state.old.level ≡ context.old.level }
    ensures begun { IfOk result (λ _. IsBegun state.old context.old scoped.now state.new context.new) }
    ensures context { IfOk result (λ _. IsContext state.new context.new) }
    ensures first { IfOk result (λ b. b.first ≡ made state.old) }
    ensures tyvars { IfOk result (λ b. b.tyvars ≡ length context.old.types.tyvars) }
{
    let tyvars = context.types.tyvars.len();
    let flexible = state.flexible.len();
    let first = enter_both(state, context)?;
    scope_tyvars(alloc, state, context, place, scoped)?;
    Ok(Begun {
        first,
        tyvars,
        flexible,
    })
}
